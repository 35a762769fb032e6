// Writing: bytes or other items put into a lent list from a place on, which moves behind them; at the list's end writing stops.
ghost use Rattle.std.specs.Prelude.{[], ◌∷◌};
ghost use Rattle.text.specs.Text.{decimal};
ghost use Rattle.text.specs.Writing.{Written, Writes};

// A lent list, and the place from which on it is written.
#[derive(Drop)]
pub struct Output<'a, T> {
    pub out: &'a mut [T],
    pub at: usize,
}

// One item at a place; answers the place after it.
fn put<T: Copy>(out: &mut [T], at: usize, item: T) -> usize
    ensures { Written (item ∷ []) at out.old result out.new }
{
    if at < out.len() {
        out[at] = item;
        at + 1
    } else {
        at
    }
}

impl<'a, T: Copy> Output<'a, T> {
    // One item.
    pub fn item(&mut self, item: T)
        ensures { Writes (item ∷ []) self.old self.new }
    {
        self.at = put(self.out, self.at, item);
    }

    // A list of items; a text is a list of bytes.
    pub fn items(&mut self, items: &[T])
        ensures { Writes items.now self.old self.new }
    {
        let mut at = self.at;
        for item in items {
            at = put(self.out, at, *item);
        }
        self.at = at;
    }
}

// A number in decimal digits at a place; answers the place after them. The place is a local of each step, and no field behind a reference.
fn put_number(out: &mut [u8], at: usize, n: u32) -> usize
    ensures { Written (decimal n) at out.old result out.new }
{
    if n < 10 {
        put(out, at, b'0' + n as u8)
    } else if n < 100 {
        let second = put(out, at, b'0' + (n / 10) as u8);
        put(out, second, b'0' + (n % 10) as u8)
    } else {
        let next = put_number(out, at, n / 10);
        put(out, next, b'0' + (n % 10) as u8)
    }
}

impl<'a> Output<'a, u8> {
    // A number in decimal digits.
    pub fn number(&mut self, n: u32)
        ensures { Writes (decimal n) self.old self.new }
    {
        self.at = put_number(self.out, self.at, n);
    }
}

// A list of items, into a list from a place on; answers the place after them.
pub fn put_all<T: Copy>(out: &mut [T], at: usize, items: &[T]) -> usize
    ensures { Written items.now at out.old result out.new }
{
    let mut output = Output { out, at };
    output.items(items);
    output.at
}

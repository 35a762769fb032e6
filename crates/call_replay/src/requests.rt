// The calls of a list.
ghost use Rattle.std.specs.Prelude.{◌≡◌, min, get_or};
ghost use Rattle.call_replay.specs.Steps.{request_in};

// A call as it stands in the list, with how many hop records and log numbers it asks for. A unit, a group or a hop is 65,535 where a
// greater number stands there.
#[derive(Clone, Copy)]
pub enum Request {
    Send {
        source: u16,
        group: u16,
        word: u32,
        hops_asked: u32,
    },
    Arrive {
        hop: u16,
        hops_asked: u32,
        book_asked: u32,
    },
    Log {
        unit: u16,
        book_asked: u32,
    },
    Length {
        unit: u16,
        book_asked: u32,
    },
    Rest {
        hops_asked: u32,
    },
}

// Number i of a list; 0 past its end.
fn number_at(list: &[u32], i: usize) -> u32
    ensures { result ≡ get_or list.now i 0 }
{
    list.get(i).copied().unwrap_or(0)
}

// The call of six numbers.
#[tactic(auto, unfolding(crate::specs::Steps::request_in))]
pub fn request_in(numbers: &[u32]) -> Request
    ensures { result ≡ request_in numbers.now }
{
    let first = bench_store::capped(number_at(numbers, 1));
    let second = bench_store::capped(number_at(numbers, 2));
    let word = number_at(numbers, 3);
    let hops_asked = number_at(numbers, 4);
    let book_asked = number_at(numbers, 5);
    match number_at(numbers, 0) {
        0 => Request::Send {
            source: first,
            group: second,
            word,
            hops_asked,
        },
        1 => Request::Arrive {
            hop: first,
            hops_asked,
            book_asked,
        },
        2 => Request::Log {
            unit: first,
            book_asked,
        },
        3 => Request::Length {
            unit: first,
            book_asked,
        },
        _ => Request::Rest { hops_asked },
    }
}

// How many are lent where so many are asked for: all, where there are fewer.
pub fn lent(asked: u32, all: usize) -> usize
    ensures { result ≡ min asked all }
{
    all.min(asked as usize)
}

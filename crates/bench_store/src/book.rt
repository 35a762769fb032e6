// The log book (document 01): a list of numbers lent by the caller, 32 rows of 200, in the order of the units.
ghost use Rattle.std.specs.Prelude.{◌≡◌, set};
ghost use Rattle.bench_store.specs.Values.{logged, filled};

use crate::Limits;

// A message goes behind the last in a unit's own row, which holds `length` so far. std's `get_mut` says nothing of what a slice then holds.
fn append(row: &mut [u16], length: usize, message: u16)
    ensures { row.new ≡ set row.old length message }
{
    if length < row.len() {
        row[length] = message;
    }
}

// Appends a message to the row of a unit.
#[tactic(auto, unfolding(crate::specs::Values::logged))]
pub fn log(book: &mut [u16], unit: usize, length: usize, message: u16)
    ensures { book.new ≡ logged unit length message book.old }
{
    if unit < Limits::UNITS {
        let start = unit * Limits::MESSAGES;
        let end = start + Limits::MESSAGES;
        if end <= book.len() {
            append(&mut book[start..end], length, message);
        }
    }
}

// The first `count` numbers become 0.
pub fn clear(book: &mut [u16], count: usize)
    ensures { book.new ≡ filled count 0 book.old }
{
    let end = count.min(book.len());
    book[..end].fill(0);
}

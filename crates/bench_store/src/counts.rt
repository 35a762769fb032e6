// Counts of hops by sender and receiver (document 01, "The bench, message by message"): arrays of 32 rows, one for each sender. A bench
// keeps a list of two: the hops made, and the hops taken.
ghost use Rattle.std.specs.Prelude.{◌≡◌};
ghost use Rattle.bench_store.specs.Values.{plus as plusOf, raised_row, count_in, added_in, row_in};

use crate::{Limits, plus};

// The counts of a sender, by receiver.
pub type Row = [u16; Limits::UNITS];

// The rows, by sender.
pub type Grid = [Row; Limits::UNITS];

// The arrays are a type parameter since the check covers a literal of a struct with an array of arrays at no type but a parameter.
#[derive(Clone, Copy)]
pub struct PairCounts<G = [Grid; 2]> {
    pub grids: G,
}

impl PairCounts {
    // Their places in the list: `count_in` and the other definitions of Values.antt speak of places.
    pub const MADE: usize = 0;

    pub const TAKEN: usize = 1;

    // How many arrays the list has.
    pub const SIZE: usize = 2;

    // The struct of the arrays.
    pub fn new(grids: [Grid; PairCounts::SIZE]) -> PairCounts
        ensures { result.grids ≡ grids }
    {
        PairCounts::holding(grids)
    }

    // The arrays out of the struct.
    pub fn grids(self) -> [Grid; PairCounts::SIZE]
        ensures { result ≡ self.grids }
    {
        [self.grids[PairCounts::MADE], self.grids[PairCounts::TAKEN]]
    }
}

impl<G> PairCounts<G> {
    // The struct of arrays of any type.
    fn holding(arrays: G) -> PairCounts<G>
        ensures { result.grids ≡ arrays }
    {
        PairCounts { grids: arrays }
    }
}

// The counts of a sender with one more to a receiver.
#[tactic(auto, unfolding(crate::specs::Values::raised_row, crate::specs::Values::added, crate::specs::Values::is_pair))]
fn raised(grid: Grid, sender: usize, receiver: usize) -> Row
    ensures { result ≡ raised_row grid sender receiver }
{
    if sender < Limits::UNITS && receiver < Limits::UNITS {
        let mut row = grid[sender];
        row[receiver] = plus(row[receiver], 1);
        row
    } else {
        [0; Limits::UNITS]
    }
}

// The count of a pair in array k.
#[tactic(auto, unfolding(crate::specs::Values::count_in, crate::specs::Values::is_pair))]
pub fn number(pairs: &[Grid], k: usize, sender: usize, receiver: usize) -> u16
    ensures { result ≡ count_in pairs.now k sender receiver }
{
    if k < pairs.len() && sender < Limits::UNITS && receiver < Limits::UNITS {
        pairs[k][sender][receiver]
    } else {
        0
    }
}

// n more for a pair in array k: its count then.
pub fn add(pairs: &mut [Grid], k: usize, sender: usize, receiver: usize, n: u16) -> u16
    ensures { (result ≡ plusOf (count_in pairs.old k sender receiver) n)
        × (pairs.new ≡ added_in pairs.old k sender receiver n) }
{
    if k < pairs.len() && sender < Limits::UNITS && receiver < Limits::UNITS {
        let count = plus(pairs[k][sender][receiver], n);
        pairs[k][sender][receiver] = count;
        count
    } else {
        n
    }
}

// One more for a pair in array k, which goes through `raised` by value: its count then.
pub fn raise_by_value(pairs: &mut [Grid], k: usize, sender: usize, receiver: usize) -> u16
    ensures { (result ≡ plusOf (count_in pairs.old k sender receiver) 1)
        × (pairs.new ≡ added_in pairs.old k sender receiver 1) }
{
    if k < pairs.len() && sender < Limits::UNITS && receiver < Limits::UNITS {
        let row = raised(pairs[k], sender, receiver);
        pairs[k][sender] = row;
        row[receiver]
    } else {
        1
    }
}

// The counts of a sender in array k.
#[tactic(auto, unfolding(crate::specs::Values::row_in))]
pub fn row(pairs: &[Grid], k: usize, sender: usize) -> Row
    ensures { result ≡ row_in pairs.now k sender }
{
    if k < pairs.len() && sender < Limits::UNITS {
        pairs[k][sender]
    } else {
        [0; Limits::UNITS]
    }
}

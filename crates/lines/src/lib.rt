// The lines of a bench file (document 01; document 02, #101): the line readers, each handed the rest of a file. Every public function is
// total.
#![tactic(auto)]

mod entries;
mod events;
mod fields;
mod members;

ghost use Rattle.std.specs.Prelude.{◌≡◌, ◌≤◌};
ghost use Rattle.lines.specs.Fields.{fault_number, up_to};
ghost use Rattle.text.specs.Text.{not_a_number, number as number_of};

pub use entries::parents;
pub use events::event;
pub use fields::{groups, units};
pub use members::group;
use text::reading::number;

// What is wrong with a line.
#[derive(Clone, Copy, Debug, PartialEq, Eq)]
pub enum Fault {
    NoLine,
    BadValue,
    BadCount,
    NoSuchUnit,
    NotRising,
    WrongLength,
    TooManyEvents,
}

impl Fault {
    // Document 01's number.
    #[tactic(auto, unfolding(crate::specs::Fields::fault_number))]
    pub fn number(self) -> u16
        ensures { result ≡ fault_number self }
    {
        match self {
            Fault::NoLine => 3,
            Fault::BadValue => 4,
            Fault::BadCount => 5,
            Fault::NoSuchUnit => 6,
            Fault::NotRising => 7,
            Fault::WrongLength => 8,
            Fault::TooManyEvents => 9,
        }
    }
}

// What a good line says, and how many bytes it takes with its LF.
#[derive(Clone, Copy)]
pub struct Line<T> {
    pub value: T,
    pub used: usize,
}

// Stands in a list for what is no number: above every limit.
const NO_NUMBER: u64 = 4294967296;

// A number of a list. It is no `Option`: the tests of a list compare what is badly written too, as a number above every limit.
fn listed(text: &[u8]) -> u64
    ensures is { result ≡ number_of text.now }
    ensures most { result ≤ not_a_number }
{
    number(text).map_or(NO_NUMBER, u64::from)
}

// One more, up to a limit; what is above the limit stays, as in `up_to`, so that it is no `min`.
#[tactic(auto, unfolding(crate::specs::Fields::up_to))]
fn counted(limit: usize, n: usize) -> usize
    ensures { result ≡ up_to limit n }
{
    if n < limit { n + 1 } else { n }
}

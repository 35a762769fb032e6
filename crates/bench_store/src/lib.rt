// What a bench is kept in: the limits, numbers and sums that stop at 16 bits, lists made of columns, pair counts, and the log book
// lent by the caller. Every function is total: a place past a list reads as zeros, and nothing is stored there.
#![tactic(auto)]

pub mod book;
pub mod columns;
pub mod counts;

ghost use Rattle.std.specs.Prelude.{◌≡◌};
ghost use Rattle.bench_store.specs.Values.{plus as plusOf, byte as byte_of, capped as cappedOf};

// Document 01's limits. This is their one home: all code of the bench reads them here.
#[derive(Clone, Copy)]
pub struct Limits {}

impl Limits {
    pub const UNITS: usize = 32;

    pub const GROUPS: usize = 24;

    pub const MESSAGES: usize = 200;

    pub const HOPS: usize = 2000;

    // The numbers of the log book: one row to a unit.
    pub const BOOK: usize = Limits::UNITS * Limits::MESSAGES;
}

// A number in 16 bits; 65,535 for every greater one.
#[tactic(auto, unfolding(crate::specs::Values::capped))]
pub fn capped(n: u32) -> u16
    ensures { result ≡ cappedOf n }
{
    u16::try_from(n).unwrap_or(u16::MAX)
}

// The sum, as far as 16 bits hold it.
#[tactic(auto, unfolding(crate::specs::Values::plus, crate::specs::Values::capped))]
pub fn plus(a: u16, b: u16) -> u16
    ensures { result ≡ plusOf a b }
{
    a.saturating_add(b)
}

// A number below 256; 0 for any other.
#[tactic(auto, unfolding(crate::specs::Values::byte))]
pub fn byte(n: u16) -> u8
    ensures { result ≡ byte_of n }
{
    u8::try_from(n).unwrap_or(0)
}

// The bench on lent lists: the one code of `send`, `arrive`, `rest`, `log`, `log_part` and `log_length`. A bench is its totals, by value,
// and four lists of the caller's; hops and log book are lent beside them. What each call promises stands in
// bench_promises/specs/Promises.antt.
//     tables     what is computed of the forest (crate `forest_tables`)
//     messages   columns of the messages: their sources, groups and words (`Messages` of `bench_store`)
//     pairs      two arrays of counts by sender and receiver: hops made, hops taken (`PairCounts` of `bench_store`)
//     gauges     columns of the small numbers of each unit: the lengths of the logs (`Gauges` of `bench_store`)
#![tactic(auto)]

pub mod arriving;
pub mod looking;
pub mod sending;

pub use arriving::arrive;
use bench_promises::{ArriveReply, SendReply, Totals};
pub use looking::{log, log_length, log_part, rest};
pub use sending::send;

// What `send` answers.
#[derive(Clone, Copy)]
pub struct Sent {
    pub totals: Totals,
    pub reply: SendReply,
}

// What `arrive` answers.
#[derive(Clone, Copy)]
pub struct Arrived {
    pub totals: Totals,
    pub reply: ArriveReply,
}

// Where the part of the book starts that `log` hands back, and how many numbers it has.
#[repr(C)]
#[derive(Clone, Copy)]
pub struct Part {
    pub start: usize,
    pub length: usize,
}

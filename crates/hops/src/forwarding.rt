// Passing a message on: a hop to each child, in rising unit number.
ghost use Rattle.std.specs.Prelude.{◌≡◌};
ghost use Rattle.hops.specs.Access.{with_pairs, forwarded, forwarded_hops};

use crate::append;
use bench_store::counts::{Grid, PairCounts};
use bench_store::{counts, plus};

// The hops that one copy taken makes.
#[derive(Clone, Copy)]
pub struct Outgoing {
    pub sender: u8,
    pub message: u16,
    // the children that have no hop yet
    pub children: u32,
    // how many hops were made
    pub made: u16,
}

// A hop to each child of `start` that has none yet, in rising unit number; each is counted. Answers how many hops are made then.
pub fn forward(hops: &mut [model::Hop], pairs: &mut [Grid], start: Outgoing) -> u16
    ensures { (result ≡ (forwarded 32 (with_pairs pairs.old start)).made)
        × (hops.new ≡ forwarded_hops 32 (with_pairs pairs.old start) hops.old)
        × (pairs.new ≡ (forwarded 32 (with_pairs pairs.old start)).pairs) }
{
    let mut made = start.made;
    for child in sets::members(start.children) {
        let sequence = counts::add(pairs, PairCounts::MADE, start.sender as usize, child, 1);
        let hop = model::Hop {
            sender: start.sender,
            receiver: child as u8,
            sequence,
            message: start.message,
            state: 0,
        };
        append(hops, made as usize, hop);
        made = plus(made, 1);
    }
    made
}

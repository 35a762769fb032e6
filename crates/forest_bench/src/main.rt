// Builds a forest of 32 units and 24 groups 10,000 times for each kind of table, and prints a checksum of all parents.
// The first argument names one kind; with none, or another word, all three are run.
#![tactic(auto)]

use std::env::Env;
use std::io;

#[derive(Clone, Copy)]
enum Kind {
    Random,
    Chain,
    Star,
}

// A set of units, and the seed that the next draw starts from.
#[derive(Clone, Copy)]
struct Draw {
    members: u32,
    seed: u32,
}

// A table of groups, and the seed that the next table starts from.
#[derive(Clone, Copy)]
struct Table {
    groups: [u32; 24],
    seed: u32,
}

// One step of a linear congruential generator.
fn step(seed: u32) -> u32 {
    seed.wrapping_mul(1664525).wrapping_add(1013904223)
}

// A unit from the seed's upper bits, the better ones.
fn unit(seed: u32) -> usize {
    (seed >> 27) as usize
}

// A group of one to four units.
fn random_group(first: u32) -> Draw {
    let mut members = 0;
    let mut seed = first;
    for _ in 0..4 {
        seed = step(seed);
        members = sets::including(members, unit(seed));
    }
    Draw { members, seed }
}

// A table of such groups.
fn random_table(first: u32) -> Table {
    let mut groups = [0u32; 24];
    let mut seed = first;
    for group in &mut groups {
        let draw = random_group(seed);
        *group = draw.members;
        seed = draw.seed;
    }
    Table { groups, seed }
}

// Link i, counted from the last, of the chain that starts at unit turn % 8: two units next to each other.
fn link(turn: usize, i: usize) -> u32 {
    let k = turn % 8 + (23 - i % 24);
    sets::including(sets::single(k), k + 1)
}

// The groups {k, k + 1} of a chain of 25 units, the last link first. So a round that starts at a chain's lowest
// unit finds one link more, and the chain that is left below a root is one or two units shorter.
fn chain(turn: usize) -> [u32; 24] {
    let mut groups = [0u32; 24];
    for (i, group) in groups.iter_mut().enumerate() {
        *group = link(turn, i);
    }
    groups
}

// The table of one turn.
fn table_of(kind: Kind, turn: usize, seed: u32) -> Table {
    match kind {
        Kind::Random => random_table(seed),
        Kind::Chain => Table {
            groups: chain(turn),
            seed,
        },
        Kind::Star => Table {
            groups: [u32::MAX; 24],
            seed,
        },
    }
}

// A checksum with one number more.
fn mixed(sum: u32, value: u8) -> u32 {
    sum.wrapping_mul(31).wrapping_add(value as u32)
}

// The checksum of all builds of one kind.
fn checksum(kind: Kind) -> u32 {
    let mut sum = 0;
    let mut seed = 1988;
    for turn in 0..10000 {
        let table = table_of(kind, turn, seed);
        seed = table.seed;
        // a table that is refused counts as 32 roots
        let parents = forest::build(32, table.groups, 24).unwrap_or([255; 32]);
        sum = parents.iter().fold(sum, |sum, parent| mixed(sum, *parent));
    }
    sum
}

fn run(rt: &impl Print, name: &str, kind: Kind) -> io::Result<()> {
    println!(rt; "{name} {}", checksum(kind))
}

fn run_all(rt: &impl Print) -> io::Result<()> {
    run(rt, "random", Kind::Random)?;
    run(rt, "chain", Kind::Chain)?;
    run(rt, "star", Kind::Star)
}

// Runs the kind that the word names.
fn run_named(rt: &impl Print, word: &[u8]) -> io::Result<()> {
    match word {
        b"random" => run(rt, "random", Kind::Random),
        b"chain" => run(rt, "chain", Kind::Chain),
        b"star" => run(rt, "star", Kind::Star),
        _ => run_all(rt),
    }
}

fn main(rt: HostRuntime) -> io::Result<()> {
    let mut word = [0u8; 16];
    // a longer word names no kind
    let length = rt.arg(1, &mut word).unwrap_or(0);
    run_named(&rt, &word[..length])
}

// Forests built, drawn and turned away, as document 01 tells: a line for each.
#![tactic(auto)]

use forest::Refusal;
use std::io;

// A list of groups whose first four places are given, with empty groups after them.
fn table(a: u32, b: u32, c: u32, d: u32) -> [u32; 24] {
    let mut groups = [0; 24];
    groups[..4].copy_from_slice(&[a, b, c, d]);
    groups
}

// Bench C's groups: {0,3}, {0,1}, {2,3}, {1,2}.
fn bench_c() -> [u32; 24] {
    table(9, 3, 12, 6)
}

// A drawing whose first four parents are given, with roots after them.
fn drawing(a: u8, b: u8, c: u8, d: u8) -> [u8; 32] {
    let mut parents = [255; 32];
    parents[..4].copy_from_slice(&[a, b, c, d]);
    parents
}

// A drawing of 32 units in one circle, the parent of each the unit after it.
fn circle() -> [u8; 32] {
    let mut parents = [0; 32];
    for u in 0..31 {
        parents[u] = u as u8 + 1;
    }
    parents
}

// The parents of the first units, with a comma between them.
fn print_parents(rt: &impl Print, units: usize, parents: [u8; 32]) -> io::Result<()> {
    rt.print(" parents=")?;
    for (u, &parent) in parents.iter().take(units).enumerate() {
        if 0 < u {
            rt.print(",")?;
        }
        if parent == 255 {
            rt.print("-")?;
        } else {
            rt.print(parent)?;
        }
    }
    Ok(())
}

// Document 01's number of a refusal, and what it carries.
fn print_refusal(rt: &impl Print, refusal: Refusal) -> io::Result<()> {
    match refusal {
        Refusal::BadCounts => rt.print(" refused=5,0"),
        Refusal::EmptyGroup => rt.print(" refused=4,0"),
        Refusal::OutsideUnits => rt.print(" refused=6,0"),
        Refusal::OwnAncestor => rt.print(" refused=10"),
        Refusal::NoPrimary(group) => print!(rt; " refused=11,{group}"),
    }
}

// One line: the name, and the units' parents or the refusal.
fn print_answer(
    rt: &impl Print,
    name: &str,
    units: usize,
    answer: Result<[u8; 32], Refusal>,
) -> io::Result<()> {
    rt.print(name)?;
    match answer {
        Ok(parents) => print_parents(rt, units, parents)?,
        Err(refusal) => print_refusal(rt, refusal)?,
    }
    rt.print("\n")
}

fn built(
    rt: &impl Print,
    name: &str,
    units: usize,
    groups: [u32; 24],
    count: usize,
) -> io::Result<()> {
    print_answer(rt, name, units, forest::build(units, groups, count))
}

fn drawn(
    rt: &impl Print,
    name: &str,
    units: usize,
    groups: [u32; 24],
    count: usize,
    parents: [u8; 32],
) -> io::Result<()> {
    print_answer(
        rt,
        name,
        units,
        forest::check(units, groups, count, parents),
    )
}

// The members of a set in rising order, with a comma between them.
fn print_members(rt: &impl Print, set: u32) -> io::Result<()> {
    for u in sets::members(set) {
        if u != sets::lowest(set) {
            rt.print(",")?;
        }
        rt.print(u)?;
    }
    Ok(())
}

// One line: the name, and the units on a group's way; of a forest that is refused, the refusal.
fn print_way(
    rt: &impl Print,
    name: &str,
    answer: Result<[u8; 32], Refusal>,
    group: u32,
) -> io::Result<()> {
    print!(rt; "{name} way=")?;
    match answer {
        Ok(parents) => print_members(rt, forest::routes::route(parents, group))?,
        Err(refusal) => print_refusal(rt, refusal)?,
    }
    rt.print("\n")
}

// Ways of P3's forest, a line of four units, and of P4's, where unit 2 carries for group 0.
fn ways(rt: &impl Print) -> io::Result<()> {
    let line = forest::build(4, bench_c(), 4);
    print_way(rt, "P3 group 0", line, 9)?;
    print_way(rt, "P3 group 1", line, 3)?;
    print_way(rt, "P3 group 2", line, 12)?;
    let drawn = forest::check(4, bench_c(), 4, drawing(255, 2, 0, 2));
    print_way(rt, "P4 group 0", drawn, 9)
}

// Document 01's examples of forests.
fn examples(rt: &impl Print) -> io::Result<()> {
    built(rt, "P1", 4, table(11, 14, 0, 0), 2)?;
    built(rt, "P2", 4, table(3, 6, 12, 0), 3)?;
    built(rt, "P3", 4, bench_c(), 4)?;
    drawn(rt, "P4", 4, bench_c(), 4, drawing(255, 2, 0, 2))?;
    drawn(rt, "P5", 4, bench_c(), 4, drawing(255, 0, 0, 0))?;
    drawn(rt, "P6", 2, [0; 24], 0, drawing(1, 0, 255, 255))
}

// What a build and a check take.
fn taken(rt: &impl Print) -> io::Result<()> {
    built(rt, "32 units", 32, table(4294967295, 0, 0, 0), 1)?;
    built(rt, "24 groups", 1, [1; 24], 24)?;
    built(rt, "no groups", 3, [0; 24], 0)?;
    built(rt, "equal groups", 3, table(6, 6, 0, 0), 2)?;
    built(rt, "member 4 past the groups", 4, table(3, 16, 0, 0), 1)?;
    drawn(
        rt,
        "parent 200 past the units",
        2,
        table(3, 0, 0, 0),
        1,
        drawing(255, 0, 200, 0),
    )
}

// What a build turns away.
fn bad_tables(rt: &impl Print) -> io::Result<()> {
    built(rt, "33 units", 33, [0; 24], 0)?;
    built(rt, "0 units", 0, [0; 24], 0)?;
    built(rt, "25 groups", 4, [1; 24], 25)?;
    built(rt, "empty group", 4, table(3, 0, 0, 0), 2)?;
    built(rt, "member 4 of 4 units", 4, table(3, 24, 0, 0), 2)
}

// What a check turns away.
fn bad_drawings(rt: &impl Print) -> io::Result<()> {
    drawn(rt, "parent 200", 4, bench_c(), 4, drawing(255, 200, 0, 2))?;
    drawn(rt, "circle of 1", 1, [0; 24], 0, drawing(0, 255, 255, 255))?;
    drawn(
        rt,
        "circle of 2",
        4,
        table(3, 0, 0, 0),
        1,
        drawing(1, 0, 255, 255),
    )?;
    drawn(rt, "circle of 32", 32, [0; 24], 0, circle())?;
    drawn(
        rt,
        "group with two roots",
        2,
        table(1, 3, 0, 0),
        2,
        [255; 32],
    )
}

// Of several faults the first in document 01's order decides, wherever it stands.
fn several_faults(rt: &impl Print) -> io::Result<()> {
    built(
        rt,
        "both faults: 33 units before empty group",
        33,
        [0; 24],
        1,
    )?;
    built(
        rt,
        "both faults: empty group before outside member",
        4,
        table(16, 0, 0, 0),
        2,
    )?;
    drawn(
        rt,
        "both faults: outside parent before circle",
        3,
        [0; 24],
        0,
        drawing(1, 0, 3, 255),
    )?;
    drawn(
        rt,
        "both faults: circle before group without primary",
        3,
        table(5, 0, 0, 0),
        1,
        drawing(1, 0, 255, 255),
    )
}

fn main(rt: HostRuntime) -> io::Result<()> {
    examples(&rt)?;
    ways(&rt)?;
    taken(&rt)?;
    bad_tables(&rt)?;
    bad_drawings(&rt)?;
    several_faults(&rt)
}

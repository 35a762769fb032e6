// The layout of a forest from a table of groups: the rule by which `build` sets parents. The groups are read in the table, which stays.
#![tactic(auto)]

ghost use Rattle.std.specs.Prelude.{◌≡◌, true, ◌<◌};
ghost use Rattle.layout.specs.Tables.{tabulate};
ghost use Rattle.layout.specs.Build.{groups_of, absorbed as absorbedOf, spread as spread_of, component as componentOf};
ghost use Rattle.layout.specs.Build.{degree as degreeOf, largest_within, built_parent};
ghost use Rattle.layout.specs.Layout.{grouped_within, degrees_of, degree_in, lies_in, inside_of, Layable, LaidOut};

// The groups that hold u.
fn groups_of(groups: &[u32; 24], u: usize) -> u32
    ensures { result ≡ groups_of groups.now u }
{
    sets::collect(24, |i| sets::member(groups[i], u))
}

// How many groups hold u: the count of ones of their set.
fn degree(groups: &[u32; 24], u: usize) -> u8
    ensures { result ≡ degreeOf groups.now u }
{
    sets::size(groups_of(groups, u)) as u8
}

// The units that some group holds.
fn grouped(groups: &[u32; 24]) -> u32
    ensures { result ≡ grouped_within 24 groups.now }
{
    let mut set: u32 = 0;
    for group in groups {
        set = sets::union(set, *group);
    }
    set
}

// For each of the units how many groups hold it; 0 for every other.
fn degrees(groups: &[u32; 24], units: u32) -> [u8; 32]
    ensures { result ≡ degrees_of groups.now units }
{
    let mut table = [0u8; 32];
    for u in sets::members(units) {
        table[u] = degree(groups, u);
    }
    table
}

// Whether the group g has all its units in s.
fn lies(g: u32, s: u32) -> bool
    ensures { result ≡ lies_in g s }
{
    sets::intersection(g, s) == g
}

// The groups that have all their units in s; an empty place of the table is among them, and joins nobody.
fn inside(groups: &[u32; 24], s: u32) -> u32
    ensures { result ≡ inside_of groups.now s }
{
    sets::collect(24, |i| lies(groups[i], s))
}

// s with the group g where it shares a unit with s.
fn absorbed(s: u32, g: u32) -> u32
    ensures { result ≡ absorbedOf s g true }
{
    if sets::intersection(s, g) != 0 {
        sets::union(s, g)
    } else {
        s
    }
}

// s with every live group that shares a unit with it, one after the other.
fn spread(groups: &[u32; 24], live: u32, s: u32) -> u32
    ensures { result ≡ spread_of 24 groups.now live s }
{
    let mut set = s;
    for k in sets::members(sets::intersection(sets::below(24), live)) {
        set = absorbed(set, groups[k]);
    }
    set
}

// The component of u over the live groups.
fn component(groups: &[u32; 24], live: u32, u: usize) -> u32
    ensures { result ≡ componentOf groups.now live u }
{
    let mut set = sets::single(u);
    for _ in 0..32usize {
        let next = spread(groups, live, set);
        if next == set {
            return set;
        }
        set = next;
    }
    set
}

// The root of the part: its unit in most groups, among equals the lowest.
fn root(degrees: &[u8; 32], part: u32) -> usize
    requires { 0 < part }
    ensures { result ≡ largest_within 32 (degree_in degrees.now) part }
{
    let mut r = sets::lowest(part);
    for k in sets::members(sets::excluding(part, r)) {
        if degrees[r] < degrees[k] {
            r = k;
        }
    }
    r
}

// Lays out one part below `top`, and below its root each smaller part that is left when the root is taken out. What is left is joined by
// the groups inside it: they are those that have a unit of it and are not set aside.
fn lay(groups: &[u32; 24], degrees: &[u8; 32], part: u32, top: u8, parents: &mut [u8; 32])
    requires { Layable groups.now degrees.now part top parents.old }
    ensures { LaidOut groups.now part parents.old parents.new }
{
    let r = root(degrees, part);
    parents[r] = top;
    let mut rest = sets::excluding(part, r);
    if rest == 0 {
        return;
    }
    let joining = inside(groups, rest);
    // No `for`: a turn takes a whole part out of the rest, and nothing is counted.
    while rest != 0 {
        let smaller = component(groups, joining, sets::lowest(rest));
        lay(groups, degrees, smaller, r as u8, parents);
        rest = sets::difference(rest, smaller);
    }
}

// The parent of every unit, part by part; a unit in no group is a root.
pub fn lay_out(groups: [u32; 24]) -> [u8; 32]
    ensures { result ≡ tabulate 32 (built_parent groups) }
{
    let all = sets::below(24);
    let mut table = [255u8; 32];
    let mut rest = grouped(&groups);
    let counts = degrees(&groups, rest);
    // No `for`: a turn takes a whole part out of the rest, and nothing is counted.
    while rest != 0 {
        let part = component(&groups, all, sets::lowest(rest));
        lay(&groups, &counts, part, 255, &mut table);
        rest = sets::difference(rest, part);
    }
    table
}

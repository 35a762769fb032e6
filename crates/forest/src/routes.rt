// In a forest of 32 parents: the units above a unit, a group's primary, and its route.
ghost use Rattle.std.specs.Prelude.{◌≡◌, List, ℕ, get_or};
ghost use Rattle.sets.specs.Sets.{below as belowOf, collect};
ghost use Rattle.layout.specs.Tables.{tabulate};
ghost use Rattle.forest.specs.Forest.{ancestors as ancestorsOf, above_every, above_some, primary as primary_of};
ghost use Rattle.forest.specs.Forest.{on_route, route as route_of};
ghost use Rattle.forest.specs.Routes.{ancestor_table, Ancestors, Steps};

// The primary of each group, 32 where it has none, and its route, empty where it has no primary.
// Two arrays, since the clauses of `route_table` name both; 32 for none, since the rule `primary` of specs/Forest.antt has it.
#[derive(Clone, Copy)]
pub struct RouteTable {
    pub primaries: [u8; 24],
    pub routes: [u32; 24],
}

// u and all units above it, by climbing.
fn climbed(parents: &[u8; 32], unit: usize) -> u32
    ensures { result ≡ ancestorsOf parents.now unit }
{
    let mut set: u32 = 0;
    let mut u = unit;
    for _ in 0..32usize {
        if 32 <= u {
            return set;
        }
        set = sets::including(set, u);
        u = usize::from(parents[u]);
    }
    set
}

// u and all units above it.
pub fn ancestors(parents: [u8; 32], unit: usize) -> u32
    ensures { result ≡ ancestorsOf parents unit }
{
    climbed(&parents, unit)
}

// The ancestors of each of the units, and nothing for any other.
fn ancestor_table(parents: &[u8; 32], units: u32) -> [u32; 32]
    ensures { result ≡ ancestor_table parents.now units }
{
    let mut table = [0u32; 32];
    for u in sets::members(units) {
        table[u] = climbed(parents, u);
    }
    table
}

// What `start` becomes by a step at each member of a group, the lowest first, which is given the units above the member.
fn over_members<F: Fn(u32, usize, u32) -> u32>(
    above: &[u32; 32],
    group: u32,
    start: u32,
    step: F,
) -> u32
    requires { F.IsAlwaysCallable step }
    ensures { (op : ℕ → ℕ → ℕ → ℕ) → ((set k units r : ℕ) → F.post step set k units r → r ≡ op k set units)
        → (rule : List ℕ → ℕ → ℕ) → Steps op rule group start
        → (ps : List ℕ) → Ancestors ps group above.now → result ≡ rule ps 32 }
{
    let mut set = start;
    for k in sets::members(group) {
        set = step(set, k, above[k]);
    }
    set
}

// The units above every member of a group, in every forest whose ancestors of the members the table has.
fn above_every(above: &[u32; 32], group: u32) -> u32
    ensures { (ps : List ℕ) → Ancestors ps group above.now → result ≡ above_every 32 ps group }
{
    over_members(
        above,
        group,
        u32::MAX,
        |set, _, units| sets::intersection(set, units),
    )
}

// The units above some member of a group, in every such forest.
fn above_some(above: &[u32; 32], group: u32) -> u32
    ensures { (ps : List ℕ) → Ancestors ps group above.now → result ≡ above_some 32 ps group }
{
    over_members(above, group, 0, |set, _, units| sets::union(set, units))
}

// A group's primary in every such forest; 32 where it has none.
#[tactic(auto, unfolding(crate::specs::Forest::primary))]
fn primary_by(above: &[u32; 32], group: u32) -> usize
    ensures { (ps : List ℕ) → Ancestors ps group above.now → result ≡ primary_of ps group }
{
    let every = above_every(above, group);
    sets::lowest(sets::intersection(group, every))
}

// The units among `some` that are below the primary, in every forest whose ancestors of these units the table has.
fn below_primary(above: &[u32; 32], some: u32, primary: usize) -> u32
    ensures { (ps : List ℕ) → Ancestors ps some above.now → result ≡ collect 32 (on_route ps primary some) }
{
    over_members(above, some, 0, |set, u, units| {
        sets::including_if(set, u, sets::member(units, primary))
    })
}

// The route of a group whose primary is given, in every forest whose ancestors of all units the table has.
fn route_by(above: &[u32; 32], group: u32, primary: usize) -> u32
    ensures { (ps : List ℕ) → Ancestors ps (belowOf 32) above.now → primary ≡ primary_of ps group
        → result ≡ route_of ps group }
{
    let some = above_some(above, group);
    below_primary(above, some, primary)
}

// A group's primary; 32 where it has none.
pub fn primary(parents: [u8; 32], group: u32) -> usize
    ensures { result ≡ primary_of parents group }
{
    let above = ancestor_table(&parents, group);
    primary_by(&above, group)
}

// The route of a group; empty where it has no primary.
pub fn route(parents: [u8; 32], group: u32) -> u32
    ensures { result ≡ route_of parents group }
{
    let above = ancestor_table(&parents, sets::below(32));
    route_by(&above, group, primary_by(&above, group))
}

// The primary and the route of every group.
pub fn route_table(parents: [u8; 32], groups: [u32; 24]) -> RouteTable
    ensures primaries { result.primaries ≡ tabulate 24 (λ g. primary_of parents (get_or groups g 0)) }
    ensures routes { result.routes ≡ tabulate 24 (λ g. route_of parents (get_or groups g 0)) }
{
    let above = ancestor_table(&parents, sets::below(32));
    let mut primaries = [0u8; 24];
    let mut routes = [0u32; 24];
    for g in 0..24 {
        let primary = primary_by(&above, groups[g]);
        primaries[g] = primary as u8;
        routes[g] = route_by(&above, groups[g], primary);
    }
    RouteTable { primaries, routes }
}

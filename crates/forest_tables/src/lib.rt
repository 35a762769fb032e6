// What a bench computes of its forest once, as one list of numbers: columns of the members of each group, its route (document 01: way) and
// its primary, of the children and the parent of each unit, and last the numbers of units and groups.
#![tactic(auto)]

ghost use Rattle.std.specs.Prelude.{◌≡◌, ◌+◌, ◌*◌, ◌%◌, ◌/◌};
ghost use Rattle.sets.specs.Sets.{size as size_of};
ghost use Rattle.layout.specs.Tables.{tabulate};
ghost use Rattle.forest_tables.specs.Computed.{with_child, children_of, entry_of, tables_of};
ghost use Rattle.forest_tables.specs.Computed.{group_in, route_in, primary_in, children_in, unit_count, group_count};

use bench_store::Limits;
use bench_store::columns::Column;

// The columns.
#[derive(Clone, Copy)]
pub struct Tables {}

impl Tables {
    pub const GROUPS: Column = Column {
        start: 0,
        size: Limits::GROUPS,
    };

    pub const ROUTES: Column = Column {
        start: Limits::GROUPS,
        size: Limits::GROUPS,
    };

    pub const PRIMARIES: Column = Column {
        start: 2 * Limits::GROUPS,
        size: Limits::GROUPS,
    };

    pub const CHILDREN: Column = Column {
        start: 3 * Limits::GROUPS,
        size: Limits::UNITS,
    };

    pub const PARENTS: Column = Column {
        start: 3 * Limits::GROUPS + Limits::UNITS,
        size: Limits::UNITS,
    };

    // Four numbers: the units and the groups, each as its lower and its upper 32 bits.
    pub const NUMBERS: Column = Column {
        start: 3 * Limits::GROUPS + 2 * Limits::UNITS,
        size: 4,
    };

    pub const SIZE: usize = 3 * Limits::GROUPS + 2 * Limits::UNITS + 4;
}

// Adds c to the children of u, if u is a unit.
fn add_child(table: &mut [u32; Limits::UNITS], u: usize, c: usize)
    ensures { table.new ≡ with_child u c table.old }
{
    if u < Limits::UNITS {
        table[u] = sets::including(table[u], c);
    }
}

// The children of each unit.
fn children_of(parents: [u8; Limits::UNITS]) -> [u32; Limits::UNITS]
    ensures { result ≡ tabulate 32 (children_of parents) }
{
    let mut table = [0u32; Limits::UNITS];
    for c in 0..Limits::UNITS {
        add_child(&mut table, parents[c] as usize, c);
    }
    table
}

// The lower and the upper 32 bits of a number: the list that the C interface lends has 32-bit numbers. A cast alone may lose no bits.
fn lower(n: usize) -> u32
    ensures { result ≡ n % 4294967296 }
{
    (n % 4294967296) as u32
}

// The upper ones.
fn upper(n: usize) -> u32
    ensures { result ≡ n / 4294967296 }
{
    (n / 4294967296) as u32
}

// The number of these bits.
fn joined(low: u32, high: u32) -> usize
    ensures { result ≡ low + 4294967296 * high }
{
    low as usize + high as usize * 4294967296
}

// Number i of the list: of its group, of its unit, or one of the last four. Columns written in turn take a loop each, and are no plainer.
#[tactic(auto, unfolding(crate::specs::Computed::entry_of))]
fn entry(
    i: usize,
    group: u32,
    route: u32,
    primary: u8,
    children: u32,
    parent: u8,
    units: usize,
    count: usize,
) -> u32
    ensures { result ≡ entry_of i group route primary children parent units count }
{
    if i < Tables::ROUTES.start {
        group
    } else if i < Tables::PRIMARIES.start {
        route
    } else if i < Tables::CHILDREN.start {
        primary as u32
    } else if i < Tables::PARENTS.start {
        children
    } else if i < Tables::NUMBERS.start {
        parent as u32
    } else if i == Tables::NUMBERS.start {
        lower(units)
    } else if i == Tables::NUMBERS.start + 1 {
        upper(units)
    } else if i == Tables::NUMBERS.start + 2 {
        lower(count)
    } else {
        upper(count)
    }
}

// The list of units, of the groups that count, and of parents. The columns begin so that number i has place i % 24 in a column of groups,
// and place (i + 24) % 32 in one of units.
pub fn of(
    units: usize,
    groups: [u32; Limits::GROUPS],
    count: usize,
    parents: [u8; Limits::UNITS],
) -> [u32; Tables::SIZE]
    ensures { result ≡ tables_of units count groups parents }
{
    let counted = forest::counting::counted(groups, count);
    let children = children_of(parents);
    let found = forest::routes::route_table(parents, counted);
    let routes = found.routes;
    let primaries = found.primaries;
    let mut table = [0u32; Tables::SIZE];
    for i in 0..Tables::SIZE {
        let g = i % Limits::GROUPS;
        let u = (i + Limits::GROUPS) % Limits::UNITS;
        table[i] = entry(
            i,
            counted[g],
            routes[g],
            primaries[g],
            children[u],
            parents[u],
            units,
            count,
        );
    }
    table
}

// The members of group g.
#[tactic(auto, unfolding(crate::specs::Computed::group_in))]
pub fn group(tables: &[u32], g: usize) -> u32
    ensures { result ≡ group_in tables.now g }
{
    Tables::GROUPS.number(tables, g)
}

// Its route.
#[tactic(auto, unfolding(crate::specs::Computed::route_in))]
pub fn route(tables: &[u32], g: usize) -> u32
    ensures { result ≡ route_in tables.now g }
{
    Tables::ROUTES.number(tables, g)
}

// The size of its route (document 01: way size).
pub fn route_size(tables: &[u32], g: usize) -> u16
    ensures { result ≡ size_of (route_in tables.now g) }
{
    let way = route(tables, g);
    sets::size(way) as u16
}

// Its primary.
#[tactic(auto, unfolding(crate::specs::Computed::primary_in))]
pub fn primary(tables: &[u32], g: usize) -> u8
    ensures { result ≡ primary_in tables.now g }
{
    let top = Tables::PRIMARIES.number(tables, g);
    (top % 256) as u8
}

// The children of unit u.
#[tactic(auto, unfolding(crate::specs::Computed::children_in))]
pub fn children(tables: &[u32], u: usize) -> u32
    ensures { result ≡ children_in tables.now u }
{
    Tables::CHILDREN.number(tables, u)
}

// How many units.
#[tactic(auto, unfolding(crate::specs::Computed::unit_count))]
pub fn unit_count(tables: &[u32]) -> usize
    ensures { result ≡ unit_count tables.now }
{
    let low = Tables::NUMBERS.number(tables, 0);
    let high = Tables::NUMBERS.number(tables, 1);
    joined(low, high)
}

// How many groups.
#[tactic(auto, unfolding(crate::specs::Computed::group_count))]
pub fn group_count(tables: &[u32]) -> usize
    ensures { result ≡ group_count tables.now }
{
    let low = Tables::NUMBERS.number(tables, 2);
    let high = Tables::NUMBERS.number(tables, 3);
    joined(low, high)
}

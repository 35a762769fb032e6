// The places at which a table of groups, or a drawing, is at fault. A place past a table holds the empty group, or a root's 255.
ghost use Rattle.std.specs.Prelude.{◌≡◌, get_or};
ghost use Rattle.forest.specs.Forest.{parent as parentOf, own_ancestor, lacks_primary, cyclic_units, without_primary};
ghost use Rattle.forest.specs.Calls.{empty_at, outside_at, outside_parent, empty_groups, outside_groups, outside_parents};

use crate::routes;

// The group at place i.
fn group(groups: &[u32; 24], i: usize) -> u32
    ensures { result ≡ get_or groups.now i 0 }
{
    groups.get(i).copied().unwrap_or(0)
}

// The parent of u.
#[tactic(auto, unfolding(crate::specs::Forest::parent))]
fn parent(parents: &[u8; 32], u: usize) -> usize
    ensures { result ≡ parentOf parents.now u }
{
    usize::from(parents.get(u).copied().unwrap_or(255))
}

// The group at place i counts and is empty.
#[tactic(auto, using(std::proofs::lemmas::Bool::Decides::nat_tests), unfolding(crate::specs::Calls::empty_at))]
fn empty_at(groups: &[u32; 24], count: usize, i: usize) -> bool
    ensures { result ≡ empty_at count groups.now i }
{
    i < count && group(groups, i) == 0
}

// The group at place i has a member that is none of the units.
#[tactic(auto, unfolding(crate::specs::Calls::outside_at))]
fn outside_at(units: usize, groups: &[u32; 24], i: usize) -> bool
    ensures { result ≡ outside_at units groups.now i }
{
    sets::difference(group(groups, i), sets::below(units)) != 0
}

// u has a parent that is neither a root's 255 nor one of the units.
#[tactic(auto, using(std::proofs::lemmas::Bool::Decides::nat_tests), unfolding(crate::specs::Calls::outside_parent))]
fn outside_parent(units: usize, parents: &[u8; 32], u: usize) -> bool
    ensures { result ≡ outside_parent units parents.now u }
{
    let p = parent(parents, u);
    units <= p && p != 255
}

// u is its own ancestor.
#[tactic(auto, unfolding(crate::specs::Forest::own_ancestor, crate::specs::Forest::above))]
fn own_ancestor(parents: &[u8; 32], u: usize) -> bool
    ensures { result ≡ own_ancestor parents.now u }
{
    let p = parent(parents, u);
    sets::member(routes::ancestors(*parents, p), u)
}

// The group at place i counts and has no primary.
fn lacks_primary(groups: &[u32; 24], count: usize, parents: &[u8; 32], i: usize) -> bool
    ensures { result ≡ lacks_primary count groups.now parents.now i }
{
    i < count && 32 <= routes::primary(*parents, group(groups, i))
}

// The groups that count and are empty.
pub fn empty_groups(groups: &[u32; 24], count: usize) -> u32
    ensures { result ≡ empty_groups count groups.now }
{
    sets::collect(32, |i| empty_at(groups, count, i))
}

// The groups with a member that is none of the units.
pub fn outside_groups(units: usize, groups: &[u32; 24]) -> u32
    ensures { result ≡ outside_groups units groups.now }
{
    sets::collect(32, |i| outside_at(units, groups, i))
}

// The units with a parent that is neither a root's nor one of the units.
pub fn outside_parents(units: usize, parents: &[u8; 32]) -> u32
    ensures { result ≡ outside_parents units parents.now }
{
    sets::collect(32, |u| outside_parent(units, parents, u))
}

// The units that are their own ancestors.
pub fn cyclic_units(parents: &[u8; 32]) -> u32
    ensures { result ≡ cyclic_units parents.now }
{
    sets::collect(32, |u| own_ancestor(parents, u))
}

// The groups that count and have no primary.
pub fn without_primary(groups: &[u32; 24], count: usize, parents: &[u8; 32]) -> u32
    ensures { result ≡ without_primary count groups.now parents.now }
{
    sets::collect(32, |i| lacks_primary(groups, count, parents, i))
}

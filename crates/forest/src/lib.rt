// Forests of units. `check` judges a drawn forest; `build` lays one out from a list of groups.
#![tactic(auto)]

pub mod counting;
mod drawing;
mod faults;
mod groups;
pub mod routes;

ghost use Rattle.std.specs.Prelude.{◌≡◌};
ghost use Rattle.forest.specs.Calls.{refusal, parents_of, build_refusal, build_parents, check_refusal, check_parents};

// What a call refuses its input for; `refusal_numbers` of specs/Calls.antt gives each case its number in document 01, and what it carries.
#[derive(Clone, Copy, Debug, PartialEq, Eq)]
pub enum Refusal {
    BadCounts,
    EmptyGroup,
    OutsideUnits,
    OwnAncestor,
    NoPrimary(usize),
}

// Judges a drawn forest on `units` units and the first `count` of the groups.
pub fn check(
    units: usize,
    groups: [u32; 24],
    count: usize,
    parents: [u8; 32],
) -> Result<[u8; 32], Refusal>
    ensures refused { refusal result ≡ check_refusal units count groups parents }
    ensures answered { parents_of result ≡ check_parents units count groups parents }
{
    let table = counting::counted(groups, count);
    let forest = drawing::drawn(units, parents);
    drawing::judge(units, &table, count, &forest)?;
    Ok(forest)
}

// Lays out a forest on `units` units for the first `count` of the groups.
pub fn build(units: usize, groups: [u32; 24], count: usize) -> Result<[u8; 32], Refusal>
    ensures refused { refusal result ≡ build_refusal units count groups }
    ensures answered { parents_of result ≡ build_parents units count groups }
{
    let table = counting::counted(groups, count);
    groups::judge(units, &table, count)?;
    Ok(drawing::drawn(units, layout::lay_out(table)))
}

// A drawn forest: what counts of its parents, and what it is refused for.
ghost use Rattle.std.specs.Prelude.{◌≡◌};
ghost use Rattle.forest.specs.Calls.{refusal, drawn as drawnOf, groups_refusal, drawing_refusal};

use crate::{Refusal, faults, groups};

// The parents of the units; the places past them are not read, and are 255.
pub fn drawn(units: usize, mut parents: [u8; 32]) -> [u8; 32]
    ensures { result ≡ drawnOf units parents }
{
    parents[units.min(32)..].fill(255);
    parents
}

// What a drawing is refused for, its groups being good.
fn judge_parents(
    units: usize,
    groups: &[u32; 24],
    count: usize,
    parents: &[u8; 32],
) -> Result<(), Refusal>
    ensures { refusal result ≡ drawing_refusal units count groups.now parents.now }
{
    if faults::outside_parents(units, parents) != 0 {
        return Err(Refusal::OutsideUnits);
    }
    if faults::cyclic_units(parents) != 0 {
        return Err(Refusal::OwnAncestor);
    }
    let bad = faults::without_primary(groups, count, parents);
    if bad != 0 {
        return Err(Refusal::NoPrimary(sets::lowest(bad)));
    }
    Ok(())
}

// What a drawing and its groups are refused for.
pub fn judge(
    units: usize,
    groups: &[u32; 24],
    count: usize,
    parents: &[u8; 32],
) -> Result<(), Refusal>
    ensures { refusal result ≡ groups_refusal units count groups.now (drawing_refusal units count groups.now parents.now) }
{
    groups::judge(units, groups, count)?;
    judge_parents(units, groups, count, parents)
}

// What a list of groups is refused for.
ghost use Rattle.std.specs.Prelude.{◌≡◌, []};
ghost use Rattle.forest.specs.Calls.{refusal, bad_counts, groups_refusal};

use crate::{Refusal, faults};

// There is no unit, or there are more than 32, or more than 24 groups.
#[tactic(auto, using(std::proofs::lemmas::Bool::Decides::nat_tests), unfolding(crate::specs::Calls::bad_counts))]
fn bad_counts(units: usize, count: usize) -> bool
    ensures { result ≡ bad_counts units count }
{
    units == 0 || 32 < units || 24 < count
}

// What a table of groups is refused for.
pub fn judge(units: usize, groups: &[u32; 24], count: usize) -> Result<(), Refusal>
    ensures { refusal result ≡ groups_refusal units count groups.now [] }
{
    if bad_counts(units, count) {
        return Err(Refusal::BadCounts);
    }
    if faults::empty_groups(groups, count) != 0 {
        return Err(Refusal::EmptyGroup);
    }
    if faults::outside_groups(units, groups) != 0 {
        return Err(Refusal::OutsideUnits);
    }
    Ok(())
}

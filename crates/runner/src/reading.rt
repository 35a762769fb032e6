// The forest of a file that was read, and document 01's number of its refusal.
ghost use Rattle.std.specs.Prelude.{◌≡◌, get_or};
ghost use Rattle.forest.specs.Calls.{refusal, refusal_numbers, parents_of};
ghost use Rattle.runner.specs.Printed.{forest_refusal, forest_parents};

use benchfile::Content;
use forest::Refusal;

// Document 01's number of a forest's refusal. No `From`: neither type is this crate's.
#[tactic(auto, unfolding(forest::specs::Calls::refusal_numbers))]
pub fn forest_number(refusal: Refusal) -> u16
    ensures { result ≡ get_or (refusal_numbers refusal) 0 0 }
{
    match refusal {
        Refusal::BadCounts => 5,
        Refusal::EmptyGroup => 4,
        Refusal::OutsideUnits => 6,
        Refusal::OwnAncestor => 10,
        Refusal::NoPrimary(_) => 11,
    }
}

// The forest of a file: built, or checked as it is drawn.
#[tactic(auto, unfolding(crate::specs::Printed::forest_refusal, crate::specs::Printed::forest_parents))]
pub fn forest_of(content: Content) -> Result<[u8; 32], Refusal>
    ensures refused { refusal result ≡ forest_refusal content }
    ensures answered { parents_of result ≡ forest_parents content }
{
    let units = content.units as usize;
    let count = content.count as usize;
    if content.build {
        forest::build(units, content.groups, count)
    } else {
        forest::check(units, content.groups, count, content.parents)
    }
}

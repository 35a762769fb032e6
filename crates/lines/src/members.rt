// The line `group=`: members with commas between them.
ghost use Rattle.std.specs.Prelude.{◌≡◌, MatchResult};
ghost use mathlib.Core.List.{foldl};
ghost use Rattle.text.specs.Text.{number as number_of};
ghost use Rattle.lines.specs.Lines.{numbers_in, group_fault, group_in};
ghost use Rattle.lines.specs.Fields.{fault_number, no_members, with_member, members_fault, Reads};

use crate::fields::keyed;
use crate::{Fault, Line, listed};

// What the members so far say: whether one is badly written; whether one is no unit; whether one does not rise; the least that the next may
// be; their set. The three flags stay apart: a later member may have the fault of the lowest number, which is the line's.
#[derive(Clone, Copy)]
pub struct Members {
    pub bad: bool,
    pub outside: bool,
    pub falls: bool,
    pub least: u64,
    pub set: u32,
}

// No members.
#[tactic(auto, unfolding(crate::specs::Fields::no_members))]
fn none() -> Members
    ensures { result ≡ no_members }
{
    Members {
        bad: false,
        outside: false,
        falls: false,
        least: 0,
        set: 0,
    }
}

// One member more, of so many units.
#[tactic(auto, unfolding(crate::specs::Fields::with_member))]
fn with_member(units: u8, members: Members, text: &[u8]) -> Members
    ensures { result ≡ with_member units members (number_of text.now) }
{
    let n = listed(text);
    Members {
        bad: members.bad || 65535 < n,
        outside: members.outside || u64::from(units) <= n,
        falls: members.falls || n < members.least,
        least: n + 1,
        set: sets::including(members.set, n as usize),
    }
}

// The members with commas between them.
fn read_members(value: &[u8], units: u8) -> Members
    ensures { result ≡ foldl (with_member units) no_members (numbers_in value.now) }
{
    value
        .split(|b| *b == b',')
        .fold(none(), |members, text| with_member(units, members, text))
}

// The set of the members, or the lowest of their faults.
#[tactic(auto, unfolding(crate::specs::Fields::members_fault, crate::specs::Fields::fault_number, crate::specs::Lines::refuse))]
fn set_of(members: Members) -> Result<u32, Fault>
    ensures { MatchResult result (λ s. (members_fault members ≡ 0) × (s ≡ members.set))
        (λ f. fault_number f ≡ members_fault members) }
{
    if members.bad {
        Err(Fault::BadValue)
    } else if members.outside {
        Err(Fault::NoSuchUnit)
    } else if members.falls {
        Err(Fault::NotRising)
    } else {
        Ok(members.set)
    }
}

// The line `group=`, of so many units: the group's set.
pub fn group(rest: &[u8], units: u8) -> Result<Line<u32>, Fault>
    ensures { Reads (group_fault units) group_in rest.now result }
{
    let line = keyed(rest, b"group=")?;
    let value = set_of(read_members(line.value, units))?;
    Ok(Line {
        value,
        used: line.used,
    })
}

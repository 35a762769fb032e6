// The line `parents=`: `build` alone, or an entry for each unit with commas between them.
ghost use Rattle.std.specs.Prelude.{◌≡◌, MatchResult};
ghost use mathlib.Core.List.{foldl};
ghost use Rattle.lines.specs.Lines.{entry as entry_of, entries_in, parents_fault};
ghost use Rattle.lines.specs.Fields.{fault_number, no_entries, with_entry, entries_fault, parent_byte, drawn_in, Reads};

use crate::fields::keyed;
use crate::{Fault, Line, counted, listed};
use text::reading::is_word;

// What the entries so far say: whether one is badly written; whether one is no unit; how many there are, counted to 256; the parents. The
// flags stay apart: a later entry may have the fault of the lowest number, which is the line's.
#[derive(Clone, Copy)]
pub struct Entries {
    pub bad: bool,
    pub outside: bool,
    pub count: usize,
    pub parents: [u8; 32],
}

// An entry, as the rule `entry` counts it: 0 for a root, else one more than the parent's number.
#[tactic(auto, unfolding(crate::specs::Lines::entry, crate::specs::Lines::root_word))]
fn entry(text: &[u8]) -> u64
    ensures { result ≡ entry_of text.now }
{
    if is_word(text, b"-") {
        0
    } else {
        listed(text) + 1
    }
}

// The parent of an entry as a byte; 255 for a root, and for what does not fit.
#[tactic(auto, unfolding(crate::specs::Fields::parent_byte))]
fn parent(entry: u64) -> u8
    ensures { result ≡ parent_byte entry }
{
    match entry {
        0 => 255,
        1..=255 => (entry - 1) as u8,
        _ => 255,
    }
}

// No entries.
#[tactic(auto, unfolding(crate::specs::Fields::no_entries))]
fn none() -> Entries
    ensures { result ≡ no_entries }
{
    Entries {
        bad: false,
        outside: false,
        count: 0,
        parents: [255; 32],
    }
}

// One entry more, of so many units.
#[tactic(auto, unfolding(crate::specs::Fields::with_entry, crate::specs::Fields::up_to))]
fn with_entry(units: u8, entries: Entries, text: &[u8]) -> Entries
    ensures { result ≡ with_entry units entries (entry_of text.now) }
{
    let e = entry(text);
    let mut parents = entries.parents;
    if entries.count < 32 {
        parents[entries.count] = parent(e);
    }
    Entries {
        bad: entries.bad || 65536 < e,
        outside: entries.outside || u64::from(units) < e,
        count: counted(256, entries.count),
        parents,
    }
}

// The entries with commas between them.
fn read_entries(value: &[u8], units: u8) -> Entries
    ensures { result ≡ foldl (with_entry units) no_entries (entries_in value.now) }
{
    value
        .split(|b| *b == b',')
        .fold(none(), |entries, text| with_entry(units, entries, text))
}

// The parents of the entries, or the lowest of their faults.
#[tactic(auto, unfolding(crate::specs::Fields::entries_fault, crate::specs::Fields::fault_number, crate::specs::Lines::refuse))]
fn parents_of(entries: Entries, units: u8) -> Result<[u8; 32], Fault>
    ensures { MatchResult result (λ ps. (entries_fault entries units ≡ 0) × (ps ≡ entries.parents))
        (λ f. fault_number f ≡ entries_fault entries units) }
{
    if entries.bad {
        Err(Fault::BadValue)
    } else if entries.outside {
        Err(Fault::NoSuchUnit)
    } else if entries.count != usize::from(units) {
        Err(Fault::WrongLength)
    } else {
        Ok(entries.parents)
    }
}

// The line `parents=`, of so many units: `None` for `build`, else the parent of each unit, 255 for a root and past the units.
pub fn parents(rest: &[u8], units: u8) -> Result<Line<Option<[u8; 32]>>, Fault>
    ensures { Reads (parents_fault units) drawn_in rest.now result }
{
    let line = keyed(rest, b"parents=")?;
    let used = line.used;
    if is_word(line.value, b"build") {
        return Ok(Line { value: None, used });
    }
    let drawn = parents_of(read_entries(line.value, units), units)?;
    Ok(Line {
        value: Some(drawn),
        used,
    })
}

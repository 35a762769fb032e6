// The lines `send=` and `arrive=`.
ghost use Rattle.std.specs.Prelude.{◌≡◌, MatchResult};
ghost use mathlib.Core.List.{foldl};
ghost use Rattle.text.specs.Text.{number as number_of};
ghost use Rattle.lines.specs.Lines.{numbers_in, event_fault};
ghost use Rattle.lines.specs.Fields.{fault_number, no_numbers, with_number, send_fault, send_numbers, said_in, Reads};

use crate::fields::{behind, limited};
use crate::{Fault, Line, counted, listed};
use text::reading::find;

// What the numbers of a send so far say: how many there are, counted to 4, and the first three. No list keeps them: memory is fixed.
#[derive(Clone, Copy)]
pub struct Triple {
    pub count: usize,
    pub first: u64,
    pub second: u64,
    pub third: u64,
}

// No numbers.
#[tactic(auto, unfolding(crate::specs::Fields::no_numbers))]
fn none() -> Triple
    ensures { result ≡ no_numbers }
{
    Triple {
        count: 0,
        first: 0,
        second: 0,
        third: 0,
    }
}

// One number more.
#[tactic(auto, unfolding(crate::specs::Fields::with_number, crate::specs::Fields::up_to))]
fn with_number(triple: Triple, text: &[u8]) -> Triple
    ensures { result ≡ with_number triple (number_of text.now) }
{
    let n = listed(text);
    Triple {
        count: counted(4, triple.count),
        first: if triple.count == 0 { n } else { triple.first },
        second: if triple.count == 1 { n } else { triple.second },
        third: if triple.count == 2 { n } else { triple.third },
    }
}

// The numbers with commas between them.
fn read_numbers(value: &[u8]) -> Triple
    ensures { result ≡ foldl with_number no_numbers (numbers_in value.now) }
{
    value
        .split(|b| *b == b',')
        .fold(none(), |triple, text| with_number(triple, text))
}

// What the numbers of a send say: source+1, group, word.
#[tactic(auto, unfolding(crate::specs::Fields::send_fault, crate::specs::Fields::send_numbers, crate::specs::Fields::fault_number))]
fn send(t: Triple) -> Result<[u32; 3], Fault>
    ensures { MatchResult result (λ ns. (send_fault t ≡ 0) × (ns ≡ send_numbers t)) (λ f. fault_number f ≡ send_fault t) }
{
    if t.count != 3 || 65534 < t.first || 65535 < t.second || 4294967295 < t.third {
        return Err(Fault::BadValue);
    }
    Ok([(t.first + 1) as u32, t.second as u32, t.third as u32])
}

// An event at the start of the rest of a file: three numbers, of a send source+1, group and word, of an arrive 0, hop and 0.
pub fn event(rest: &[u8]) -> Result<Line<[u32; 3]>, Fault>
    ensures { Reads (event_fault 0) said_in rest.now result }
{
    // the LF is looked for once, whichever key the line has
    let end = find(rest, b'\n');
    if let Ok(line) = behind(rest, end, b"send=") {
        let value = send(read_numbers(line.value))?;
        return Ok(Line {
            value,
            used: line.used,
        });
    }
    let line = behind(rest, end, b"arrive=")?;
    let hop = limited(line.value, 65535)?;
    Ok(Line {
        value: [0, hop, 0],
        used: line.used,
    })
}

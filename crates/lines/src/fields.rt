// Lines that say one number: `units=` and `groups=`.
ghost use Rattle.std.specs.Prelude.{◌≡◌, ◌≤◌, ◌<◌, MatchResult};
ghost use Rattle.text.specs.Text.{number as number_of};
ghost use Rattle.text.specs.Writing.{place_of};
ghost use Rattle.lines.specs.Lines.{count_fault, count_in, units_fault, groups_fault, units_key, groups_key};
ghost use Rattle.lines.specs.Fields.{Keyed, Keyless, Reads};
ghost use Rattle.lines.specs.declared.Fault.TheVariants.{BadValue};

use crate::{Fault, Line};
use text::reading::{find, number, starts_with};

// What stands behind a key, where the line at the start of the rest of a file has its LF, at `end`, and begins with the key.
pub fn behind<'a>(rest: &'a [u8], end: usize, key: &[u8]) -> Result<Line<&'a [u8]>, Fault>
    requires { end ≡ place_of 10 rest.now }
    ensures { MatchResult result (λ line. Keyed key.now rest.now line.value.now line.used) (Keyless key.now rest.now) }
{
    if end == rest.len() || !starts_with(&rest[..end], key) {
        return Err(Fault::NoLine);
    }
    Ok(Line {
        value: &rest[key.len()..end],
        used: end + 1,
    })
}

// The same, where the line may have no other key, so that its LF is looked for here.
pub fn keyed<'a>(rest: &'a [u8], key: &[u8]) -> Result<Line<&'a [u8]>, Fault>
    ensures { MatchResult result (λ line. Keyed key.now rest.now line.value.now line.used) (Keyless key.now rest.now) }
{
    behind(rest, find(rest, b'\n'), key)
}

// A number up to a limit.
pub fn limited(text: &[u8], most: u32) -> Result<u32, Fault>
    ensures { MatchResult result (λ n. (n ≡ number_of text.now) × (n ≤ most))
        (λ f. (f ≡ BadValue) × (most < number_of text.now)) }
{
    match number(text) {
        Some(n) if n <= most => Ok(n),
        _ => Err(Fault::BadValue),
    }
}

// A key and a number from `least` to `most`.
fn count(rest: &[u8], key: &[u8], least: u8, most: u8) -> Result<Line<u8>, Fault>
    ensures { Reads (count_fault key.now least most) (count_in key.now) rest.now result }
{
    let line = keyed(rest, key)?;
    let value = limited(line.value, 65535)?;
    if value < least as u32 || (most as u32) < value {
        return Err(Fault::BadCount);
    }
    Ok(Line {
        value: value as u8,
        used: line.used,
    })
}

// The line `units=`.
#[tactic(auto, unfolding(crate::specs::Lines::units_fault, crate::specs::Lines::units_key))]
pub fn units(rest: &[u8]) -> Result<Line<u8>, Fault>
    ensures { Reads units_fault (count_in units_key) rest.now result }
{
    count(rest, b"units=", 1, 32)
}

// The line `groups=`.
#[tactic(auto, unfolding(crate::specs::Lines::groups_fault, crate::specs::Lines::groups_key))]
pub fn groups(rest: &[u8]) -> Result<Line<u8>, Fault>
    ensures { Reads groups_fault (count_in groups_key) rest.now result }
{
    count(rest, b"groups=", 0, 24)
}

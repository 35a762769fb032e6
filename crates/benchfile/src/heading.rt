// The lines before the events: `units=`, `groups=`, the lines `group=`, `parents=`. What is left of the file behind them is handed on.
ghost use Rattle.std.specs.Prelude.{[], MatchResult};
ghost use Rattle.text.specs.Text.{split};
ghost use Rattle.benchfile.specs.File.{UnitsDue, GroupDue, steps};
ghost use Rattle.benchfile.specs.Steps.{BadLine, CountsRead, GroupsRead, HeadingRead};

use crate::{Content, FaultyLine, at_line};
use lines::{group, groups, parents, units};
use text::writing::put_all;

// `units=` and `groups=`: both numbers.
#[derive(Clone, Copy)]
pub struct Counts<'a> {
    pub units: u8,
    pub count: u8,
    pub rest: &'a [u8],
}

// The lines `group=`: the groups.
#[derive(Clone, Copy)]
pub struct Groups<'a> {
    pub sets: [u32; 24],
    pub rest: &'a [u8],
}

// All of them: the content so far.
#[derive(Clone, Copy)]
pub struct Heading<'a> {
    pub content: Content,
    pub rest: &'a [u8],
}

// Reads the first two lines.
fn read_counts(file: &[u8]) -> Result<Counts<'_>, FaultyLine>
    ensures { MatchResult result (λ r. CountsRead file.now r.units r.count r.rest.now) (BadLine (steps 1 (split 10 file.now) UnitsDue)) }
{
    let first = at_line(1, units(file))?;
    let rest = &file[first.used..];
    let second = at_line(2, groups(rest))?;
    Ok(Counts {
        units: first.value,
        count: second.value,
        rest: &rest[second.used..],
    })
}

// Reads so many lines `group=`, of so many units; the first of them is line 3.
fn group_lines(text: &[u8], units: u8, count: u8) -> Result<Groups<'_>, FaultyLine>
    ensures { MatchResult result (λ r. GroupsRead text.now units count r.sets r.rest.now)
        (BadLine (steps 3 (split 10 text.now) (GroupDue units count []))) }
{
    let mut sets = [0u32; 24];
    let mut rest = text;
    for i in 0..count as usize {
        let line = at_line(3 + i, group(rest, units))?;
        put_all(&mut sets, i, &[line.value]);
        rest = &rest[line.used..];
    }
    Ok(Groups { sets, rest })
}

// Reads all lines before the events.
pub fn read_heading(file: &[u8]) -> Result<Heading<'_>, FaultyLine>
    ensures { MatchResult result (λ r. HeadingRead file.now r.content r.rest.now) (BadLine (steps 1 (split 10 file.now) UnitsDue)) }
{
    let first = read_counts(file)?;
    let found = group_lines(first.rest, first.units, first.count)?;
    let drawing = at_line(3 + first.count as usize, parents(found.rest, first.units))?;
    Ok(Heading {
        content: Content {
            units: first.units,
            count: first.count,
            groups: found.sets,
            build: drawing.value.is_none(),
            parents: drawing.value.unwrap_or([255; 32]),
            events: 0,
        },
        rest: &found.rest[drawing.used..],
    })
}

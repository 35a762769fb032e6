// The lines of events: read into a list that `store` keeps, and copied to the caller's list only once all lines are known to be good.
ghost use Rattle.std.specs.Prelude.{MatchResult};
ghost use Rattle.benchfile.specs.Steps.{EventsRead, EventsRefused, NumbersPut, Stored};

use crate::{Fault, FaultyLine, at_line};
use lines::event;
use text::writing::put_all;

// A file has at most so many events.
const MOST_EVENTS: u16 = 3000;

// Reads the events in the rest of a file, the first of which is in a line: counts them, and puts their numbers into a list.
fn read_events(text: &[u8], first: u8, kept: &mut [u32]) -> Result<u16, FaultyLine>
    ensures { MatchResult result (EventsRead text.now (NumbersPut kept.old kept.new)) (EventsRefused text.now first) }
{
    let mut rest = text;
    let mut count = 0;
    let mut next = 0;
    // how far the next line reaches is known only once it is read
    while !rest.is_empty() {
        let number = first as usize + count as usize;
        let line = at_line(number, event(rest))?;
        if MOST_EVENTS <= count {
            return Err(FaultyLine {
                fault: Fault::TooManyEvents,
                line: number,
            });
        }
        next = put_all(kept, next, &line.value);
        rest = &rest[line.used..];
        count += 1;
    }
    Ok(count)
}

// Reads the events in the rest of a file, the first of which is in a line, and, where all lines are good, stores them.
pub fn store(rest: &[u8], first: u8, list: &mut [u32]) -> Result<u16, FaultyLine>
    ensures { Stored rest.now first list.old result list.new }
{
    let mut kept = [0u32; 9000];
    let count = read_events(rest, first, &mut kept)?;
    put_all(list, 0, &kept[..3 * count as usize]);
    Ok(count)
}

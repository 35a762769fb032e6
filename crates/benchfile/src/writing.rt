// Writes the lines of a content.
ghost use Rattle.std.specs.Prelude.{map};
ghost use Rattle.text.specs.Writing.{Written, Writes};
ghost use Rattle.lines.specs.Lines.{group_line, event_line};
ghost use Rattle.benchfile.specs.File.{ended, text_of};
ghost use Rattle.benchfile.specs.Calls.{events_from, file_of};

use crate::Content;
use line_writer::{put_count, put_event, put_group, put_parents};
use text::writing::Output;

// The lines `group=`.
fn put_groups(output: &mut Output<u8>, groups: &[u32])
    ensures { Writes (ended (map group_line groups.now)) output.old output.new }
{
    for group in groups {
        put_group(output, *group);
    }
}

// The lines of the first so many events of a list, three numbers for each. An event that the list does not have whole ends the lines.
fn put_events(output: &mut Output<u8>, list: &[u32], count: u16)
    ensures { Writes (ended (map event_line (events_from count list.now))) output.old output.new }
{
    // by number and not by `chunks_exact`: the list is longer than the events that count
    for k in 0..count as usize {
        let i = 3 * k;
        if list.len() - i < 3 {
            return;
        }
        put_event(output, list[i], list[i + 1], list[i + 2]);
    }
}

// All lines, from the list's start; answers how many bytes. Of the 24 places of groups at most 24 count.
pub fn put_file(content: Content, list: &[u32], out: &mut [u8]) -> usize
    ensures { Written (text_of (file_of content list.now)) 0 out.old result out.new }
{
    let count = content.count.min(24);
    let mut output = Output { out, at: 0 };
    put_count(&mut output, b"units=", content.units as u32);
    put_count(&mut output, b"groups=", count as u32);
    put_groups(&mut output, &content.groups[..count as usize]);
    put_parents(&mut output, content.build, content.parents, content.units);
    put_events(&mut output, list, content.events);
    output.at
}

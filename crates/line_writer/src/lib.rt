// Lines of a bench file (document 01), written each with its LF.
#![tactic(auto)]

ghost use Rattle.std.specs.Prelude.{true, [], ◌∷◌, ◌++◌, take};
ghost use Rattle.text.specs.Text.{decimal};
ghost use Rattle.text.specs.Writing.{Writes};
ghost use Rattle.lines.specs.Lines.{count_line, group_line, parent_text, parents_line, parents_said, event_line, event_of};
ghost use Rattle.line_writer.specs.Texts.{separator, member_texts, parent_texts};

use text::writing::Output;

// A key and a number.
pub fn put_count(output: &mut Output<u8>, key: &[u8], n: u32)
    ensures { Writes (count_line key.now n ++ 10 ∷ []) output.old output.new }
{
    output.items(key);
    output.number(n);
    output.item(b'\n');
}

// A comma, but before the first.
#[tactic(auto, using(text::proofs::Written::writes_none), unfolding(crate::specs::Texts::separator))]
fn put_separator(output: &mut Output<u8>, first: bool)
    ensures { Writes (separator first) output.old output.new }
{
    if !first {
        output.item(b',');
    }
}

// The members of a set, with commas between them.
fn put_members(output: &mut Output<u8>, set: u32)
    ensures { Writes (member_texts 32 0 true set) output.old output.new }
{
    let mut first = true;
    for u in sets::members(set) {
        put_separator(output, first);
        output.number(u as u32);
        first = false;
    }
}

// The line `group=`.
pub fn put_group(output: &mut Output<u8>, set: u32)
    ensures { Writes (group_line set ++ 10 ∷ []) output.old output.new }
{
    output.items(b"group=");
    put_members(output, set);
    output.item(b'\n');
}

// A parent: `-` for a root.
fn put_parent(output: &mut Output<u8>, parent: u8)
    ensures { Writes (parent_text parent) output.old output.new }
{
    if parent == 255 {
        output.item(b'-');
    } else {
        output.number(parent as u32);
    }
}

// The parents of so many units, with commas between them.
fn put_entries(output: &mut Output<u8>, parents: [u8; 32], units: u8)
    ensures { Writes (parent_texts true (take units parents)) output.old output.new }
{
    let mut first = true;
    for parent in parents.iter().take(units as usize) {
        put_separator(output, first);
        put_parent(output, *parent);
        first = false;
    }
}

// The line `parents=`. The flag and the parents come apart, as `benchfile::Content` holds them.
pub fn put_parents(output: &mut Output<u8>, build: bool, parents: [u8; 32], units: u8)
    ensures { Writes (parents_line (parents_said build (take units parents)) ++ 10 ∷ []) output.old output.new }
{
    output.items(b"parents=");
    if build {
        output.items(b"build");
    } else {
        put_entries(output, parents, units);
    }
    output.item(b'\n');
}

// The three numbers of a send.
fn put_send(output: &mut Output<u8>, source: u32, group: u32, word: u32)
    ensures { Writes (decimal source ++ 44 ∷ decimal group ++ 44 ∷ decimal word) output.old output.new }
{
    output.number(source);
    output.item(b',');
    output.number(group);
    output.item(b',');
    output.number(word);
}

// An event of three numbers, as the list of events that C lends holds it: 0 first is an arrive.
pub fn put_event(output: &mut Output<u8>, first: u32, second: u32, third: u32)
    ensures { Writes (event_line (event_of first second third) ++ 10 ∷ []) output.old output.new }
{
    if first == 0 {
        put_count(output, b"arrive=", second);
    } else {
        output.items(b"send=");
        put_send(output, first - 1, second, third);
        output.item(b'\n');
    }
}

// Lines that the program prints (document 01), each with its LF.
#![tactic(auto)]

ghost use Rattle.std.specs.Prelude.{[], ◌∷◌, ◌++◌};
ghost use Rattle.text.specs.Writing.{Writes};
ghost use Rattle.output_lines.specs.Output.{refused_line, message_texts, log_line, hops_line, rest_line};

use text::writing::Output;

// `refused=line,number`.
pub fn put_refusal(output: &mut Output<u8>, line: u16, number: u16)
    ensures { Writes (refused_line line number ++ 10 ∷ []) output.old output.new }
{
    output.items(b"refused=");
    output.number(line as u32);
    output.item(b',');
    output.number(number as u32);
    output.item(b'\n');
}

// Messages, a comma before each.
fn put_messages(output: &mut Output<u8>, log: &[u16])
    ensures { Writes (message_texts log.now) output.old output.new }
{
    for message in log {
        output.item(b',');
        output.number(*message as u32);
    }
}

// `log=unit` and the messages of the unit's log.
pub fn put_log(output: &mut Output<u8>, unit: u16, log: &[u16])
    ensures { Writes (log_line unit log.now ++ 10 ∷ []) output.old output.new }
{
    output.items(b"log=");
    output.number(unit as u32);
    put_messages(output, log);
    output.item(b'\n');
}

// `hops=` and how many were made.
pub fn put_hops(output: &mut Output<u8>, hops: u16)
    ensures { Writes (hops_line hops ++ 10 ∷ []) output.old output.new }
{
    line_writer::put_count(output, b"hops=", hops as u32);
}

// The last line: `rest=` and `yes` or `no`.
pub fn put_rest(output: &mut Output<u8>, rest: bool)
    ensures { Writes (rest_line rest ++ 10 ∷ []) output.old output.new }
{
    if rest {
        output.items(b"rest=yes\n");
    } else {
        output.items(b"rest=no\n");
    }
}

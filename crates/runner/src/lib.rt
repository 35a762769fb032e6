// The program as one function on slices: from the bytes of a bench file to the bytes printed (document 01, "The bench file").
#![tactic(auto)]

mod benches;
mod events;
mod reading;
mod results;

ghost use Rattle.std.specs.Prelude.{◌≡◌, ◌%◌, [], ◌∷◌, ◌++◌};
ghost use Rattle.output_lines.specs.Output.{refused_line};
ghost use Rattle.runner.specs.Printed.{RunPromise};
ghost use Rattle.runner.specs.Steps.{PrintedAs, FileRefused, ContentRun};

use bench_store::Limits;
pub use benchfile::ListTooShort;
use benchfile::{Content, ReadRefusal};
use text::writing::Output;

// How many bytes were printed, and the sum of the numbers that all answers of taken carry; `run_answer` and `taken_in` give the values.
#[derive(Clone, Copy, PartialEq, Eq, Debug)]
pub struct Printed {
    pub bytes: usize,
    pub taken: u16,
}

impl Printed {
    // The least length of the lent list. A number that is printed has at most five digits: 3,000 refused events of 20 bytes, 32 logs of
    // 1,210, `hops=` of 11 and `rest=` of 9.
    pub const OUTPUT: usize = 98740;
}

// A line of a file in 16 bits, which each fits: `as` alone has to lose nothing for every number, and `try_from` has a refusal to handle.
fn in_16_bits(line: usize) -> u16
    ensures { result ≡ line % 65536 }
{
    (line % 65536) as u16
}

// A file or a forest that is refused.
fn refused(line: u16, number: u16, out: &mut [u8]) -> Printed
    ensures { PrintedAs (refused_line line number ++ 10 ∷ []) 0 out.old result out.new }
{
    let mut output = Output { out, at: 0 };
    output_lines::put_refusal(&mut output, line, number);
    Printed {
        bytes: output.at,
        taken: 0,
    }
}

// A file that is refused: the fault's number and line. A refusal without a line has line 0.
#[tactic(auto, unfolding(crate::specs::Steps::refusal_text, crate::specs::Steps::refusal_in, benchfile::specs::Calls::read_answer))]
fn refused_file(refusal: ReadRefusal, out: &mut [u8]) -> Printed
    ensures { FileRefused refusal out.old result out.new }
{
    match refusal {
        ReadRefusal::ListTooShort => refused(0, 1, out),
        ReadRefusal::FileTooLong => refused(0, 2, out),
        ReadRefusal::Faulty(e) => refused(in_16_bits(e.line), e.fault.number(), out),
    }
}

// Runs a file that was read: its content, the line of `parents=`, and the numbers of its events.
fn run_content(content: Content, line: u16, list: &[u32], out: &mut [u8]) -> Printed
    ensures { ContentRun content line list.now out.old result out.new }
{
    match reading::forest_of(content) {
        Ok(parents) => {
            let mut book = [0u16; Limits::BOOK];
            benches::run_bench(
                content.units as usize,
                content.groups,
                content.count as usize,
                parents,
                list,
                &mut book,
                out,
            )
        }
        Err(refusal) => refused(line, reading::forest_number(refusal), out),
    }
}

// Reads a bench file, runs it, and prints to the front of a list of at least Printed::OUTPUT bytes; the rest of the list stays.
pub fn run(file: &[u8], out: &mut [u8]) -> Result<Printed, ListTooShort>
    ensures { RunPromise file.now out.old result out.new }
{
    if out.len() < Printed::OUTPUT {
        return Err(ListTooShort);
    }
    let mut list = [0u32; 9000];
    let printed = match benchfile::read(file, &mut list) {
        Ok(read) => run_content(
            read.content,
            in_16_bits(read.line),
            &list[..read.numbers],
            out,
        ),
        Err(refusal) => refused_file(refusal, out),
    };
    Ok(printed)
}

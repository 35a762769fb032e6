// The bench file (document 01; document 02, #101): `read` takes a file apart, `write` puts it together again.
#![tactic(auto)]

mod events;
mod heading;
mod writing;

ghost use Rattle.std.specs.Prelude.{◌≡◌, Ok, Err, MatchResult};
ghost use Rattle.benchfile.specs.Calls.{ReadPromise, WritePromise};
ghost use Rattle.benchfile.specs.Steps.{AtLine};
ghost use Rattle.benchfile.specs.declared.ReadRefusal.TheVariants.{Faulty};

pub use lines::Fault;

// What a file says beside its events: units; groups, of whose places the first `count` count; `build`, or the 32 parents; how many events.
#[derive(Clone, Copy)]
pub struct Content {
    pub units: u8,
    pub count: u8,
    pub groups: [u32; 24],
    // kept apart from the parents, 255 for `build`: the field `undrawn` of `WellFormed` speaks of both
    pub build: bool,
    pub parents: [u8; 32],
    pub events: u16,
}

// A file that was read: its content, how many numbers were written for its events, and the line of `parents=`.
#[derive(Clone, Copy)]
pub struct ReadFile {
    pub content: Content,
    pub numbers: usize,
    pub line: usize,
}

// A fault, and its line.
#[derive(Clone, Copy, Debug, PartialEq, Eq)]
pub struct FaultyLine {
    pub fault: Fault,
    pub line: usize,
}

// Why a file is turned away; `read_answer` of specs/Calls.antt gives document 01's number and the values of each case.
#[derive(Clone, Copy, Debug, PartialEq, Eq)]
pub enum ReadRefusal {
    ListTooShort,
    FileTooLong,
    Faulty(FaultyLine),
}

impl From<FaultyLine> for ReadRefusal {
    ghost from_gives = { λ e r. r ≡ Faulty e };

    fn from(e: FaultyLine) -> ReadRefusal {
        ReadRefusal::Faulty(e)
    }
}

// The one refusal of a call that writes to a lent list: that is too short. `write_answer` of specs/Calls.antt gives document 01's number.
#[derive(Clone, Copy, Debug, PartialEq, Eq)]
pub struct ListTooShort;

// A file has at most so many bytes.
const MOST_BYTES: usize = 32768;

// What a line reader answers, with the line beside a fault.
fn at_line<T>(line: usize, answer: Result<T, Fault>) -> Result<T, FaultyLine>
    ensures { AtLine line answer result }
{
    answer.map_err(|fault| FaultyLine { fault, line })
}

// Reads a file. Its events go to the front of a list of at least 9,000 numbers, three for each: of a send source+1, group and word, of an
// arrival 0, hop and 0. The rest of the list stays, and all of it where the file is turned away.
pub fn read(file: &[u8], list: &mut [u32]) -> Result<ReadFile, ReadRefusal>
    ensures { ReadPromise file.now list.old result list.new }
{
    if list.len() < 9000 {
        return Err(ReadRefusal::ListTooShort);
    }
    if MOST_BYTES < file.len() {
        return Err(ReadRefusal::FileTooLong);
    }
    let head = heading::read_heading(file)?;
    let line = 3 + head.content.count;
    let events = events::store(head.rest, line + 1, list)?;
    Ok(ReadFile {
        content: Content {
            events,
            ..head.content
        },
        numbers: 3 * events as usize,
        line: line as usize,
    })
}

// Writes a file to the front of a list of at least 32,768 bytes; the rest of the list stays. The events are those that `read` left.
pub fn write(content: Content, list: &[u32], out: &mut [u8]) -> Result<usize, ListTooShort>
    ensures { WritePromise content list.now out.old result out.new }
{
    if list.len() < 9000 || out.len() < MOST_BYTES {
        return Err(ListTooShort);
    }
    let bytes = writing::put_file(content, &list[..9000], &mut out[..MOST_BYTES]);
    Ok(bytes)
}

// Bench files, good and bad, as document 01 tells: a line for each, with what `read` answers, and for a good file whether `write` gives it
// back.
#![tactic(auto)]

use benchfile::{Content, Fault, ListTooShort, ReadFile, ReadRefusal};
use std::io;
use text::writing::put_all;

fn refused(rt: &impl Print, number: usize, line: usize) -> io::Result<()> {
    print!(rt; " refused={number},{line}")
}

// Document 01's number of a fault.
fn number_of(fault: Fault) -> usize {
    match fault {
        Fault::NoLine => 3,
        Fault::BadValue => 4,
        Fault::BadCount => 5,
        Fault::NoSuchUnit => 6,
        Fault::NotRising => 7,
        Fault::WrongLength => 8,
        Fault::TooManyEvents => 9,
    }
}

fn print_refusal(rt: &impl Print, refusal: ReadRefusal) -> io::Result<()> {
    match refusal {
        ReadRefusal::ListTooShort => rt.print(" refused=1"),
        ReadRefusal::FileTooLong => refused(rt, 2, 0),
        ReadRefusal::Faulty(e) => refused(rt, number_of(e.fault), e.line),
    }
}

// Whether some number of the list is not 7, which all were before.
fn changed(list: &[u32]) -> bool {
    list.iter().any(|number| *number != 7)
}

// Whether the list begins with the file and goes on with zeros.
fn holds(out: &[u8], file: &[u8]) -> bool {
    match out.strip_prefix(file) {
        Some(rest) => rest.iter().all(|byte| *byte == 0),
        None => false,
    }
}

// How many bytes were written, and whether they are the file's.
fn print_same(rt: &impl Print, bytes: usize, same: bool) -> io::Result<()> {
    let word = if same { "the same" } else { "DIFFERENT" };
    print!(rt; " bytes={bytes} {word}")
}

// Writes to so many bytes of a list, or to all where it has fewer.
fn write_part(
    content: Content,
    list: &[u32],
    out: &mut [u8],
    bytes: usize,
) -> Result<usize, ListTooShort> {
    let end = out.len().min(bytes);
    benchfile::write(content, list, &mut out[..end])
}

// Writes a content to a list of a length, and says whether the file came back.
fn print_written(
    rt: &impl Print,
    content: Content,
    list: &[u32],
    file: &[u8],
    bytes: usize,
) -> io::Result<()> {
    let mut out = [0u8; 40000];
    match write_part(content, list, &mut out, bytes) {
        Ok(count) => print_same(rt, count, holds(&out, file)),
        Err(ListTooShort) => rt.print(" write refused=1"),
    }
}

// Reads to so many numbers of a list, or to all where it has fewer.
fn read_part(file: &[u8], list: &mut [u32], numbers: usize) -> Result<ReadFile, ReadRefusal> {
    let end = list.len().min(numbers);
    benchfile::read(file, &mut list[..end])
}

// One line: the name, what `read` answers with a list of a length, and what `write` gives, or whether a refused call changed the list.
fn tried(rt: &impl Print, name: &str, file: &[u8], numbers: usize, bytes: usize) -> io::Result<()> {
    let mut list = [7u32; 9100];
    rt.print(name)?;
    match read_part(file, &mut list, numbers) {
        Ok(read) => {
            print!(rt; " numbers,parents={},{}", read.numbers, read.line)?;
            print_written(rt, read.content, &list, file, bytes)?
        }
        Err(refusal) => {
            print_refusal(rt, refusal)?;
            if changed(&list) {
                rt.print(" CHANGED")?
            }
        }
    }
    rt.print("\n")
}

fn case(rt: &impl Print, name: &str, file: &[u8]) -> io::Result<()> {
    tried(rt, name, file, 9000, 32768)
}

// A file with lists that are longer than needed, or too short.
fn lent(rt: &impl Print, file: &[u8]) -> io::Result<()> {
    tried(rt, "9,100 numbers, 40,000 bytes lent", file, 9100, 40000)?;
    tried(rt, "8,999 numbers lent", file, 8999, 32768)?;
    tried(rt, "32,767 bytes lent", file, 9000, 32767)
}

// Files that are read.
fn good(rt: &impl Print) -> io::Result<()> {
    let p8 = b"units=4\ngroups=4\ngroup=0,3\ngroup=0,1\ngroup=2,3\ngroup=1,2\n\
          parents=-,2,0,2\nsend=3,0,500\nsend=1,2,600\narrive=0\narrive=1\narrive=2\narrive=4\narrive=3\n";
    case(rt, "P8", p8)?;
    case(rt, "P10", b"units=1\ngroups=0\nparents=-\n")?;
    case(
        rt,
        "build",
        b"units=3\ngroups=1\ngroup=0,2\nparents=build\n",
    )?;
    case(
        rt,
        "largest numbers",
        b"units=32\ngroups=1\ngroup=31\nparents=build\nsend=65534,65535,4294967295\narrive=65535\n",
    )?;
    lent(rt, p8)
}

// Lines that are missing or lack their LF: 3.
fn missing_lines(rt: &impl Print) -> io::Result<()> {
    case(rt, "empty file", b"")?;
    case(rt, "no LF", b"units=1")?;
    case(rt, "groups missing", b"units=1\n")?;
    case(rt, "parents missing", b"units=1\ngroups=0\n")?;
    case(
        rt,
        "bytes after the last LF",
        b"units=1\ngroups=0\nparents=-\narrive=0",
    )
}

// Lines with another key: 3.
fn other_keys(rt: &impl Print) -> io::Result<()> {
    case(rt, "doubled last LF", b"units=1\ngroups=0\nparents=-\n\n")?;
    case(rt, "space in a key", b"units =1\n")?;
    case(
        rt,
        "groups where group is due",
        b"units=1\ngroups=1\ngroups=0\n",
    )?;
    case(
        rt,
        "group too many",
        b"units=1\ngroups=0\ngroup=0\nparents=-\n",
    )?;
    case(
        rt,
        "another key",
        b"units=1\ngroups=0\nparents=-\narrived=0\n",
    )
}

// Values that are not written as told: 4.
fn bad_values(rt: &impl Print) -> io::Result<()> {
    case(rt, "CR LF", b"units=1\r\ngroups=0\r\nparents=-\r\n")?;
    case(rt, "leading zero", b"units=01\n")?;
    case(rt, "no value", b"units=\n")?;
    case(rt, "65,536", b"units=65536\n")
}

// Lists that are not written as told: 4.
fn bad_lists(rt: &impl Print) -> io::Result<()> {
    case(rt, "empty entry", b"units=2\ngroups=1\ngroup=0,,1\n")?;
    case(rt, "comma at the end", b"units=2\ngroups=1\ngroup=0,1,\n")?;
    case(rt, "builds", b"units=1\ngroups=0\nparents=builds\n")?;
    case(
        rt,
        "build in a list",
        b"units=2\ngroups=0\nparents=-,build\n",
    )
}

// Events that are not written as told: 4.
fn bad_events(rt: &impl Print) -> io::Result<()> {
    case(
        rt,
        "source 65,535",
        b"units=1\ngroups=0\nparents=-\nsend=65535,0,0\n",
    )?;
    case(
        rt,
        "send of two numbers",
        b"units=1\ngroups=0\nparents=-\nsend=0,0\n",
    )?;
    case(
        rt,
        "send of four numbers",
        b"units=1\ngroups=0\nparents=-\nsend=0,0,0,0\n",
    )?;
    case(
        rt,
        "word 4,294,967,296",
        b"units=1\ngroups=0\nparents=-\nsend=0,0,4294967296\n",
    )?;
    case(
        rt,
        "hop 65,536",
        b"units=1\ngroups=0\nparents=-\narrive=65536\n",
    )?;
    case(
        rt,
        "arrive=-1",
        b"units=1\ngroups=0\nparents=-\narrive=-1\n",
    )
}

// Numbers outside their limits: 5 and 6; of several faults in a line the lowest number decides.
fn bad_numbers(rt: &impl Print) -> io::Result<()> {
    case(rt, "0 units", b"units=0\n")?;
    case(rt, "33 units", b"units=33\n")?;
    case(rt, "25 groups", b"units=1\ngroups=25\n")?;
    case(
        rt,
        "member 2 of 2 units, not rising",
        b"units=2\ngroups=1\ngroup=1,0,2\n",
    )?;
    case(rt, "parent 255", b"units=2\ngroups=0\nparents=255,-\n")?;
    case(
        rt,
        "parent outside, too long",
        b"units=2\ngroups=0\nparents=-,-,2\n",
    )
}

// Members that do not rise, and too few or too many parents: 7 and 8; that of the first bad line.
fn bad_sequences(rt: &impl Print) -> io::Result<()> {
    case(rt, "not rising", b"units=2\ngroups=1\ngroup=1,0\n")?;
    case(rt, "a member twice", b"units=2\ngroups=1\ngroup=0,0\n")?;
    case(rt, "parents too short", b"units=2\ngroups=0\nparents=-\n")?;
    case(
        rt,
        "parents too long",
        b"units=2\ngroups=0\nparents=-,-,-\n",
    )?;
    case(
        rt,
        "badly written after not rising",
        b"units=2\ngroups=1\ngroup=1,0,x\n",
    )?;
    case(
        rt,
        "first bad line, not lowest number",
        b"units=2\ngroups=2\ngroup=1,0\ngroup=x\n",
    )
}

// So many times a line, from a place on.
fn repeated(file: &mut [u8], at: usize, line: &[u8], times: usize) -> usize {
    let mut next = at;
    for _ in 0..times {
        next = put_all(file, next, line);
    }
    next
}

// The start of a list, as a file.
fn start_case(rt: &impl Print, name: &str, file: &[u8], end: usize) -> io::Result<()> {
    if end <= file.len() {
        case(rt, name, &file[..end])?;
    }
    Ok(())
}

// A file of one unit with so many of two lines, and a last one.
fn events(
    rt: &impl Print,
    name: &str,
    first: &[u8],
    many: usize,
    second: &[u8],
    few: usize,
    last: &[u8],
) -> io::Result<()> {
    let mut file = [0u8; 32800];
    let start = put_all(&mut file, 0, b"units=1\ngroups=0\nparents=build\n");
    let middle = repeated(&mut file, start, first, many);
    let near = repeated(&mut file, middle, second, few);
    let end = put_all(&mut file, near, last);
    start_case(rt, name, &file, end)
}

// A file with so many arrivals of hop 0, and a last line.
fn arrivals(rt: &impl Print, name: &str, many: usize, last: &[u8]) -> io::Result<()> {
    events(rt, name, b"arrive=0\n", many, b"", 0, last)
}

// A file with so many lines of 13 bytes and of 12, and a last one.
fn long_file(rt: &impl Print, name: &str, many: usize, few: usize, last: &[u8]) -> io::Result<()> {
    events(
        rt,
        name,
        b"arrive=10000\n",
        many,
        b"arrive=1000\n",
        few,
        last,
    )
}

// Many events, and long files.
fn large(rt: &impl Print) -> io::Result<()> {
    arrivals(rt, "3,000 events", 3000, b"")?;
    arrivals(rt, "3,001 events", 3001, b"")?;
    arrivals(rt, "3,001st event badly written", 3000, b"arrive=00\n")?;
    arrivals(rt, "3,001st event without LF", 3000, b"arrive=0")?;
    long_file(rt, "32,768 bytes", 2509, 10, b"")?;
    long_file(rt, "32,769 bytes", 2510, 9, b"")?;
    long_file(rt, "32,769 bytes, the last no LF", 2509, 10, b"x")
}

fn main(rt: HostRuntime) -> io::Result<()> {
    good(&rt)?;
    missing_lines(&rt)?;
    other_keys(&rt)?;
    bad_values(&rt)?;
    bad_lists(&rt)?;
    bad_events(&rt)?;
    bad_numbers(&rt)?;
    bad_sequences(&rt)?;
    large(&rt)
}

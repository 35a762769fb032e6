// The calls of include/scrollcairn.h and scrollcairn_replay.h, for other languages. The promise of each is in the rules' terms
// (specs/Exported.antt; of the live calls specs/Live.antt).
#![tactic(auto)]

mod answers;
mod contents;
pub mod live;
mod opening;
mod steps;

ghost use Rattle.call_replay.specs.Rules.{given};
ghost use Rattle.scrollcairn_c.specs.Exported.{RunExported, BuildExported, CheckExported, ReadExported, WriteExported};
ghost use Rattle.scrollcairn_c.specs.Exported.{CallsExported};

// Runs a bench file.
#[unsafe(no_mangle)]
pub extern "C" fn scrollcairn_run(file: &[u8], out: &mut [u8], answer: &mut [u64; 3])
    ensures { RunExported file.now out.old out.new answer.new }
{
    answers::put(answers::of_run(runner::run(file, out)), answer);
}

// Lays out a forest.
#[unsafe(no_mangle)]
pub extern "C" fn scrollcairn_build(
    units: usize,
    groups: &[u32; 24],
    count: usize,
    parents: &mut [u8; 32],
    answer: &mut [u64; 3],
)
    ensures { BuildExported units groups.now count parents.old parents.new
        answer.new }
{
    let built = forest::build(units, *groups, count);
    answers::put_forest(built, parents, answer);
}

// Checks a drawn forest.
#[unsafe(no_mangle)]
pub extern "C" fn scrollcairn_check(
    units: usize,
    groups: &[u32; 24],
    count: usize,
    drawn: &[u8; 32],
    parents: &mut [u8; 32],
    answer: &mut [u64; 3],
)
    ensures { CheckExported units groups.now count drawn.now parents.old parents.new
        answer.new }
{
    let checked = forest::check(units, *groups, count, *drawn);
    answers::put_forest(checked, parents, answer);
}

// Reads a bench file.
#[unsafe(no_mangle)]
pub extern "C" fn scrollcairn_read(
    file: &[u8],
    events: &mut [u32],
    groups: &mut [u32; 24],
    parents: &mut [u8; 32],
    counts: &mut [u16; 4],
    answer: &mut [u64; 3],
)
    ensures { ReadExported file.now events.old groups.old
        parents.old counts.old
        events.new groups.new parents.new counts.new answer.new }
{
    match benchfile::read(file, events) {
        Ok(read) => {
            contents::put(read.content, groups, parents, counts);
            answers::put(c_answers::told(0, read.numbers, read.line), answer);
        }
        Err(refusal) => answers::put(answers::of_unread(refusal), answer),
    }
}

// Writes a bench file.
#[unsafe(no_mangle)]
pub extern "C" fn scrollcairn_write(
    groups: &[u32; 24],
    parents: &[u8; 32],
    counts: &[u16; 4],
    events: &[u32],
    out: &mut [u8],
    answer: &mut [u64; 3],
)
    ensures { WriteExported groups.now parents.now counts.now
        events.now out.old
        out.new answer.new }
{
    let content = contents::of(*groups, *parents, *counts);
    let written = benchfile::write(content, events, out);
    answers::put(answers::of_write(written), answer);
}

// Runs a list of calls on a fresh bench.
#[unsafe(no_mangle)]
pub extern "C" fn scrollcairn_calls(
    units: usize,
    groups: &[u32; 24],
    count: usize,
    parents: &[u8; 32],
    fresh_hops: usize,
    fresh_book: usize,
    calls: &[u32],
    book: &mut [u16],
    hops: &mut [u16],
    bench: &mut [u32],
    replies: &mut [u16],
    answer: &mut [u64; 3],
)
    ensures { CallsExported (given units count groups.now parents.now fresh_hops
        fresh_book calls.now
        book.old hops.old bench.old replies.old)
        book.new hops.new bench.new replies.new answer.new }
{
    let told = call_replay::run(
        units, *groups, count, *parents, fresh_hops, fresh_book, calls, book, hops, bench, replies,
    );
    answers::put(told, answer);
}

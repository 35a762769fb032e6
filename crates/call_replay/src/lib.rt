// A list of calls, run on a fresh bench; what they answer and leave, as numbers: of 32 bits where they tell the bench, else of 16.
#![tactic(auto)]

mod benches;
mod replies;
mod requests;
mod writing;

ghost use Rattle.std.specs.Prelude.{◌≡◌};
ghost use Rattle.call_replay.specs.Rules.{given, CallsPromise};
ghost use Rattle.call_replay.specs.Steps.{lists_short, lent_short};

use bench_store::Limits;
use c_answers::Answer;

// The sizes of the lists.
#[derive(Clone, Copy)]
pub struct Sizes {}

impl Sizes {
    // The hop records: the last eight no call uses.
    pub const RECORDS: usize = Limits::HOPS + 8;

    // A record has five numbers.
    pub const HOPS: usize = 5 * Sizes::RECORDS;

    // Four totals, the length of each log, three numbers of each message, two counts of each pair.
    pub const BENCH: usize = 4
        + Limits::UNITS
        + 3 * Limits::MESSAGES
        + 2 * Limits::UNITS * Limits::UNITS;

    // A call has six numbers, a reply at most three and a log.
    pub const CALL: usize = 6;

    pub const REPLY: usize = 3 + Limits::MESSAGES;
}

// Whether a list for results is too short, of so many calls.
#[tactic(auto, using(crate::proofs::Puts::divided), unfolding(crate::specs::Steps::lists_short))]
fn is_short(hops: usize, bench: usize, replies: usize, calls: usize) -> bool
    ensures { result ≡ lists_short hops bench replies calls }
{
    hops < Sizes::HOPS || bench < Sizes::BENCH || replies / Sizes::REPLY < calls
}

// Whether a list lent to the fresh bench is too short.
#[tactic(auto, unfolding(crate::specs::Steps::lent_short))]
fn is_fresh_short(hops: usize, numbers: usize, book: usize) -> bool
    ensures { result ≡ lent_short hops numbers book }
{
    hops.min(Sizes::RECORDS) < Limits::HOPS || numbers.min(book) < Limits::BOOK
}

// Makes a fresh bench on a checked forest and runs a list of calls on it. Its parameters are those of the C call, in their order: a struct
// of them would be taken apart again at once.
pub fn run(
    units: usize,
    groups: [u32; Limits::GROUPS],
    count: usize,
    parents: [u8; Limits::UNITS],
    fresh_hops: usize,
    fresh_book: usize,
    calls: &[u32],
    book: &mut [u16],
    hops: &mut [u16],
    bench: &mut [u32],
    replies: &mut [u16],
) -> Answer
    ensures { CallsPromise (given units count groups parents fresh_hops fresh_book
        calls.now book.old
        hops.old
        bench.old replies.old) result book.new hops.new bench.new replies.new }
{
    let number = calls.len() / Sizes::CALL;
    if is_short(hops.len(), bench.len(), replies.len(), number) {
        return c_answers::told(1, 1, 0);
    }
    let drawn = match forest::check(units, groups, count, parents) {
        Ok(drawn) => drawn,
        Err(refusal) => return Answer::from(refusal),
    };
    if is_fresh_short(fresh_hops, fresh_book, book.len()) {
        return c_answers::told(1, 0, 0);
    }
    let end = benches::run_list(
        units, groups, count, drawn, fresh_hops, fresh_book, calls, book, replies, hops,
    );
    writing::put_bench(bench, end.bench);
    c_answers::told(0, number, end.numbers)
}

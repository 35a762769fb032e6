// The calls run on hops and book, as lent.
ghost use Rattle.std.specs.Prelude.{◌≡◌};
ghost use Rattle.text.specs.Writing.{Writes};
ghost use Rattle.call_replay.specs.Rules.{hop_numbers};
ghost use Rattle.call_replay.specs.Steps.{CallRun, CallsFrom, ListRun};

use crate::requests::{Request, lent};
use crate::{Sizes, replies, requests, writing};
use bench::Bench;
use bench_store::Limits;
use c_answers::replies::Reply;
use text::writing::Output;

// The bench that calls leave, and how many numbers their replies have.
#[derive(Clone, Copy)]
pub struct Ended {
    pub bench: Bench,
    pub numbers: usize,
}

// Runs one call on a bench, lent the first of the hops and of the book, and puts its reply. The bench is lent too: a call that only looks
// at it copies it once, for the call by value.
fn run_call(
    bench: &mut Bench,
    request: Request,
    hops: &mut [model::Hop],
    book: &mut [u16],
    output: &mut Output<u16>,
)
    ensures { CallRun bench.old hops.old book.old output.old request bench.new hops.new book.new output.new }
{
    match request {
        Request::Send {
            source,
            group,
            word,
            hops_asked,
        } => {
            let n = lent(hops_asked, hops.len());
            let sent = bench.send(source, group, word, &mut hops[..n]);
            replies::put_three(output, Reply::from(sent.reply));
            *bench = sent.bench;
        }
        Request::Arrive {
            hop,
            hops_asked,
            book_asked,
        } => {
            let n = lent(hops_asked, hops.len());
            let m = lent(book_asked, book.len());
            let arrived = bench.arrive(hop, &mut hops[..n], &mut book[..m]);
            replies::put_three(output, Reply::from(arrived.reply));
            *bench = arrived.bench;
        }
        Request::Log { unit, book_asked } => {
            let m = lent(book_asked, book.len());
            replies::put_log(output, bench, unit, &book[..m]);
        }
        Request::Length { unit, book_asked } => {
            let m = lent(book_asked, book.len());
            replies::put_length(output, bench, unit, &book[..m]);
        }
        Request::Rest { hops_asked } => {
            let n = lent(hops_asked, hops.len());
            let rest = bench.rest(&hops[..n]);
            replies::put_three(output, Reply::from(rest));
        }
    }
}

// Runs the calls of a list, and puts their replies; answers the bench that they leave.
fn run_calls(
    start: Bench,
    calls: &[u32],
    hops: &mut [model::Hop],
    book: &mut [u16],
    output: &mut Output<u16>,
) -> Bench
    ensures same_list { output.new.out.ghost_name ≡ output.old.out.ghost_name }
    ensures run { CallsFrom calls.now start hops.old book.old output.old
        result hops.new book.new output.new }
{
    let mut bench = start;
    for call in calls.chunks_exact(Sizes::CALL) {
        let request = requests::request_in(call);
        run_call(&mut bench, request, hops, book, output);
    }
    bench
}

// Puts hop records, each read through `hops::read` as every record is (document 01).
fn put_hops(output: &mut Output<u16>, hops: &[model::Hop])
    ensures { Writes (hop_numbers hops.now) output.old output.new }
{
    for i in 0..hops.len() {
        let hop = hops::read(hops, i);
        writing::put_hop(output, hop);
    }
}

// Makes a fresh bench, lent the first of the hop records and of the book, runs the calls of a list, and puts their replies and the records.
// Its parameters are those of `run`.
pub fn run_list(
    units: usize,
    groups: [u32; Limits::GROUPS],
    count: usize,
    parents: [u8; Limits::UNITS],
    fresh_hops: usize,
    fresh_book: usize,
    calls: &[u32],
    book: &mut [u16],
    out: &mut [u16],
    records: &mut [u16],
) -> Ended
    ensures { ListRun units count groups parents fresh_hops fresh_book calls.now book.old
        out.old
        records.old result book.new out.new records.new }
{
    let mut hops = [model::Hop {
        sender: 9,
        receiver: 9,
        sequence: 9,
        message: 9,
        state: 9,
    }; Sizes::RECORDS];
    let n = fresh_hops.min(Sizes::RECORDS);
    let m = fresh_book.min(book.len());
    let fresh = Bench::fresh(
        units,
        groups,
        count,
        parents,
        &mut hops[..n],
        &mut book[..m],
    );
    let mut replies = Output { out, at: 0 };
    let bench = run_calls(fresh.bench, calls, &mut hops, book, &mut replies);
    let mut left = Output {
        out: records,
        at: 0,
    };
    put_hops(&mut left, &hops);
    Ended {
        bench,
        numbers: replies.at,
    }
}

// The events of a file, run on a bench one after the other; the line of a refused event is printed at once.
ghost use Rattle.std.specs.Prelude.{◌≡◌, get_or};
ghost use Rattle.model.specs.Demand3.{carried};
ghost use Rattle.bench_promises.specs.Replies.{send_refusal_number, arrive_refusal_number, arrive_answer};
ghost use Rattle.bench_promises.specs.State.{bench};
ghost use Rattle.text.specs.Writing.{Writes};
ghost use Rattle.benchfile.specs.File.{ended};
ghost use Rattle.runner.specs.Steps.{refusal_lines};
ghost use Rattle.runner.specs.Steps.{begun_with, event_count, event_at, after_send, after_arrive, EventRun, Noted};
ghost use Rattle.runner.specs.Steps.{EventsRun};

use bench_engine::{Arrived, Sent};
use bench_promises::{ArriveRefusal, ArriveReply, Receipt, SendRefusal, Totals};
use bench_store::counts::Grid;
use text::writing::Output;

// How far a run has come; the lists of the bench are lent (crate `bench_engine`).
#[derive(Clone, Copy)]
pub struct Progress {
    pub totals: Totals,
    // the line of the next event
    pub line: u16,
    // the sum of the numbers that the answers of taken carry
    pub taken: u16,
    // why the last event was turned away: document 01's number
    pub refusal: Option<u16>,
}

// An event. In the list it is three numbers (document 01): of a send source+1, group and word, of an arrival 0, hop and 0. Only a word may
// need more than 16 bits (document 02, #101).
#[derive(Clone, Copy)]
pub enum Event {
    Send { source: u16, group: u16, word: u32 },
    Arrive { hop: u16 },
}

// Before the first event, whose line is four more than the groups.
#[tactic(auto, unfolding(crate::specs::Steps::begun_with))]
pub fn begun(groups: usize, totals: Totals) -> Progress
    ensures { result ≡ begun_with groups totals }
{
    Progress {
        totals,
        line: bench_store::plus((groups % 65536) as u16, 4),
        taken: 0,
        refusal: None,
    }
}

// How many events a list has; at most 3,000.
#[tactic(auto, unfolding(crate::specs::Steps::event_count))]
fn event_count(list: &[u32]) -> u16
    ensures { result ≡ event_count list.now }
{
    list.len().div_ceil(3).min(3000) as u16
}

// Number i of a list; 0 past its end.
fn number_at(list: &[u32], i: usize) -> u32
    ensures { result ≡ get_or list.now i 0 }
{
    list.get(i).copied().unwrap_or(0)
}

// Event n of a list.
#[tactic(auto, unfolding(crate::specs::Steps::event_at, crate::specs::Steps::event_of))]
fn event_at(list: &[u32], n: u16) -> Event
    ensures { result ≡ event_at n list.now }
{
    let i = 3 * n as usize;
    let first = bench_store::capped(number_at(list, i));
    let second = bench_store::capped(number_at(list, i + 1));
    if first == 0 {
        Event::Arrive { hop: second }
    } else {
        Event::Send {
            source: first - 1,
            group: second,
            word: number_at(list, i + 2),
        }
    }
}

// Why a send was turned away: document 01's number. No `From`: neither type is this crate's.
fn send_number(refusal: SendRefusal) -> u16
    ensures { result ≡ send_refusal_number refusal }
{
    match refusal {
        SendRefusal::ListTooShort => 1,
        SendRefusal::NoSuchUnit => 12,
        SendRefusal::NoSuchGroup => 13,
        SendRefusal::TooManyMessages => 14,
        SendRefusal::RoutesTooLong => 15,
    }
}

// Why an arrival was turned away: document 01's number. No `From`, as above.
fn arrive_number(refusal: ArriveRefusal) -> u16
    ensures { result ≡ arrive_refusal_number refusal }
{
    match refusal {
        ArriveRefusal::ListTooShort => 1,
        ArriveRefusal::NotMade => 16,
    }
}

// The number carried by a taken answer; held, repeat and refusal carry none.
#[tactic(auto, unfolding(model::specs::Demand3::carried, bench_promises::specs::Replies::arrive_answer))]
fn carried_by(reply: ArriveReply) -> u16
    ensures { result ≡ carried (arrive_answer reply) }
{
    let Ok(Receipt::Taken(n)) = reply else {
        return 0;
    };
    n
}

// After a send was answered.
#[tactic(auto, unfolding(crate::specs::Steps::after_send))]
fn after_send(p: Progress, sent: Sent) -> Progress
    ensures { result ≡ after_send p sent }
{
    Progress {
        totals: sent.totals,
        refusal: sent.reply.err().map(send_number),
        ..p
    }
}

// After an arrival was answered.
#[tactic(auto, unfolding(crate::specs::Steps::after_arrive))]
fn after_arrive(p: Progress, arrived: Arrived) -> Progress
    ensures { result ≡ after_arrive p arrived }
{
    Progress {
        totals: arrived.totals,
        taken: bench_store::plus(p.taken, carried_by(arrived.reply)),
        refusal: arrived.reply.err().map(arrive_number),
        ..p
    }
}

// Runs one event. The bench's lists are lent apart, as `bench_engine` takes them, which is lent C's.
fn run_event(
    p: Progress,
    e: Event,
    tables: &[u32],
    messages: &mut [u32],
    pairs: &mut [Grid],
    gauges: &mut [u16],
    hops: &mut [model::Hop],
    book: &mut [u16],
) -> Progress
    ensures { EventRun p (bench p.totals tables.now messages.old pairs.old
        gauges.old) e
        hops.old book.old
        result (bench result.totals tables.now messages.new pairs.new gauges.new)
        hops.new book.new }
{
    match e {
        Event::Send {
            source,
            group,
            word,
        } => {
            let sent = bench_engine::send(
                p.totals, source, group, word, tables, messages, pairs, hops,
            );
            after_send(p, sent)
        }
        Event::Arrive { hop } => {
            let arrived = bench_engine::arrive(
                p.totals, hop, tables, messages, pairs, gauges, hops, book,
            );
            after_arrive(p, arrived)
        }
    }
}

// The line of an event that was turned away; none of another.
#[tactic(auto, using(text::proofs::Written::writes_none), unfolding(crate::specs::Steps::refusal_lines, benchfile::specs::File::ended))]
fn put_turned_away(output: &mut Output<u8>, line: u16, refusal: Option<u16>)
    ensures { Writes (ended (refusal_lines line refusal)) output.old output.new }
{
    if let Some(number) = refusal {
        output_lines::put_refusal(output, line, number);
    }
}

// Prints the line of the last event if it was turned away, and goes on to the next.
fn noted(p: Progress, output: &mut Output<u8>) -> Progress
    ensures { Noted p output.old result output.new }
{
    put_turned_away(output, p.line, p.refusal);
    Progress {
        line: bench_store::plus(p.line, 1),
        refusal: None,
        ..p
    }
}

// Runs the events of a list; the bench's lists are lent apart, as above. By number: the last event may be short, and at most 3,000 are run.
pub fn run_events(
    start: Progress,
    list: &[u32],
    tables: &[u32],
    messages: &mut [u32],
    pairs: &mut [Grid],
    gauges: &mut [u16],
    hops: &mut [model::Hop],
    book: &mut [u16],
    output: &mut Output<u8>,
) -> Progress
    ensures same_list { output.new.out.ghost_name ≡ output.old.out.ghost_name }
    ensures run { EventsRun list.now
        0 start (bench start.totals tables.now messages.old pairs.old gauges.old)
        hops.old book.old output.old
        result (bench result.totals tables.now messages.new pairs.new gauges.new)
        hops.new book.new output.new }
{
    let mut p = start;
    for n in 0..event_count(list) {
        let e = event_at(list, n);
        let q = run_event(p, e, tables, messages, pairs, gauges, hops, book);
        p = noted(q, output);
    }
    p
}

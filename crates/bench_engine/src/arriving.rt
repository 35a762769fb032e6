// One arrival: the copy is held, and as long as the next copy of its pair is held, that is taken.
ghost use Rattle.std.specs.Prelude.{◌≡◌, not, Result, Ok};
ghost use Rattle.model.specs.Network.{is_out};
ghost use Rattle.bench_promises.specs.declared.replies.ArriveRefusal.{ArriveRefusal as Refusal};
ghost use Rattle.bench_promises.specs.declared.replies.Receipt.{Receipt as ReceiptOf};
ghost use Rattle.bench_store.specs.Values.{count_in};
ghost use Rattle.bench_promises.specs.Machine.{arrive_refusal, is_next, begun as begunAt, delivery_to, log_copy};
ghost use Rattle.bench_promises.specs.Machine.{outgoing as outgoingOf, longer_by, after_copy, take_arrival, take_pairs, take_hops};
ghost use Rattle.bench_promises.specs.Machine.{take_book};
ghost use Rattle.bench_promises.specs.Machine.{search_from, search_end, moved_to, next_arrival, is_going as goes, settled_from};
ghost use Rattle.bench_promises.specs.Machine.{finished_totals, finished_pairs, finished_gauges, finished_reply};
ghost use Rattle.bench_promises.specs.State.{bench};
ghost use Rattle.bench_promises.specs.Promises.{ArrivePromise};
ghost use Rattle.bench_engine.specs.Steps.{arrive_number, arrived_as};

use crate::Arrived;
use bench_promises::{Arrival, ArriveRefusal, Delivery, Receipt, Totals};
use bench_store::columns::{Gauges, Messages};
use bench_store::counts::{Grid, PairCounts};
use bench_store::{Limits, counts};

// Why an arrival is turned away, if it is.
#[tactic(auto, unfolding(bench_promises::specs::Machine::arrive_refusal, model::specs::Rules::refuse))]
fn check(t: Totals, hop: u16, hops: usize, book: usize) -> Result<(), ArriveRefusal>
    ensures { arrive_number result ≡ arrive_refusal t.made hop hops book }
{
    if hops < Limits::HOPS || book < Limits::BOOK {
        return Err(ArriveRefusal::ListTooShort);
    }
    if t.made <= hop {
        return Err(ArriveRefusal::NotMade);
    }
    Ok(())
}

// Whether a hop is out: neither held nor taken.
#[tactic(auto, unfolding(model::specs::Network::is_out))]
fn is_out(hop: model::Hop) -> bool
    ensures { result ≡ is_out hop }
{
    hop.state == 0
}

// How many hops of the pair of a hop were taken.
fn taken_of(h: model::Hop, pairs: &[Grid]) -> u16
    ensures { result ≡ count_in pairs.now 1 h.sender h.receiver }
{
    let s = h.sender as usize;
    let r = h.receiver as usize;
    counts::number(pairs, PairCounts::TAKEN, s, r)
}

// Whether the hop is only held: it is not the next of its pair.
#[tactic(auto, unfolding(bench_promises::specs::Machine::is_next))]
fn is_held(taken: u16, hop: model::Hop) -> bool
    ensures { result ≡ not (is_next taken hop) }
{
    hop.sequence != bench_store::plus(taken, 1)
}

// The arrival of the hop at a place, whose record is h: `taken` of its pair were taken, and at most so many copies more are.
#[tactic(auto, unfolding(bench_promises::specs::Machine::begun))]
fn begun(
    t: Totals,
    place: usize,
    h: model::Hop,
    taken: u16,
    copies: usize,
    pairs: &[Grid],
    gauges: &[u16],
) -> Arrival
    ensures { result ≡ begunAt t pairs.now gauges.now place h taken copies }
{
    let s = h.sender as usize;
    let r = h.receiver as usize;
    let made = counts::number(pairs, PairCounts::MADE, s, r);
    Arrival {
        sender: h.sender,
        receiver: h.receiver,
        at: place,
        end: t.made as usize,
        left: made.saturating_sub(taken),
        taken: 0,
        copies,
        length: Gauges::LENGTHS.number(gauges, r),
        made: t.made,
    }
}

// Whether a hop is to be taken.
#[tactic(auto, unfolding(bench_promises::specs::Machine::is_going))]
fn is_going(a: Arrival) -> bool
    ensures { result ≡ goes a }
{
    a.at < a.end && (a.taken as usize) < a.copies
}

// What message m means to a receiver.
#[tactic(auto, unfolding(bench_promises::specs::Machine::delivery_to))]
fn delivery_to(receiver: u8, m: u16, tables: &[u32], messages: &[u32]) -> Delivery
    ensures { result ≡ delivery_to tables.now messages.now receiver m }
{
    let at = m.saturating_sub(1) as usize;
    let g = Messages::GROUPS.number(messages, at) as usize;
    let r = receiver as usize;
    let members = forest_tables::group(tables, g);
    let below = forest_tables::children(tables, r);
    let way = forest_tables::route(tables, g);
    Delivery {
        message: m,
        member: sets::member(members, r),
        children: sets::intersection(below, way),
    }
}

// The receiver logs the message if it is a member.
#[tactic(auto, unfolding(bench_promises::specs::Machine::log_copy))]
fn log_copy(a: Arrival, d: Delivery, book: &mut [u16])
    ensures { book.new ≡ log_copy a d book.old }
{
    if d.member {
        bench_store::book::log(book, a.receiver as usize, a.length as usize, d.message);
    }
}

// The hops to make: one to each of the receiver's children on the route of the message's group.
#[tactic(auto, unfolding(bench_promises::specs::Machine::outgoing))]
fn outgoing(a: Arrival, d: Delivery) -> hops::Outgoing
    ensures { result ≡ outgoingOf a d }
{
    hops::Outgoing {
        sender: a.receiver,
        message: d.message,
        children: d.children,
        made: a.made,
    }
}

// The length of the receiver's log after the copy.
#[tactic(auto, unfolding(bench_promises::specs::Machine::longer_by))]
fn longer(a: Arrival, d: Delivery) -> u16
    ensures { result ≡ longer_by a d }
{
    if d.member {
        bench_store::plus(a.length, 1)
    } else {
        a.length
    }
}

// The arrival once the copy was taken: so many hops are made.
#[tactic(auto, unfolding(bench_promises::specs::Machine::after_copy))]
fn after_copy(a: Arrival, d: Delivery, made: u16) -> Arrival
    ensures { result ≡ after_copy a d made }
{
    Arrival {
        left: a.left.saturating_sub(1),
        taken: bench_store::plus(a.taken, 1),
        length: longer(a, d),
        made,
        ..a
    }
}

// One copy is taken: its hop, the receiver's log, and the hops to the children, which are counted.
// The lists are parameters: a struct that lends them would name each in the contract by two fields, and add that two of them stay.
fn take(
    a: Arrival,
    tables: &[u32],
    messages: &[u32],
    pairs: &mut [Grid],
    hops: &mut [model::Hop],
    book: &mut [u16],
) -> Arrival
    ensures { (result ≡ take_arrival tables.now messages.now a pairs.old hops.old)
        × (pairs.new ≡ take_pairs tables.now messages.now a pairs.old hops.old)
        × (hops.new ≡ take_hops tables.now messages.now a pairs.old hops.old)
        × (book.new ≡ take_book tables.now messages.now a hops.old book.old) }
{
    let m = hops::message_at(hops, a.at);
    hops::set_state(hops, a.at, 2);
    let d = delivery_to(a.receiver, m, tables, messages);
    log_copy(a, d, book);
    let start = outgoing(a, d);
    let made = hops::forward(hops, pairs, start);
    after_copy(a, d, made)
}

// Where the search for the pair's next hop begins.
#[tactic(auto, unfolding(bench_promises::specs::Machine::search_from))]
fn search_from(a: Arrival) -> usize
    ensures { result ≡ search_from a }
{
    if a.at < a.end { a.at + 1 } else { a.end }
}

// Where it ends: at once where the pair has no hop left.
#[tactic(auto, unfolding(bench_promises::specs::Machine::search_end))]
fn search_end(a: Arrival) -> usize
    ensures { result ≡ search_end a }
{
    if a.left == 0 { 0 } else { a.end }
}

// The arrival with the place of the pair's next hop, if that, by its state, is held.
#[tactic(auto, unfolding(bench_promises::specs::Machine::moved_to, bench_promises::specs::Machine::move_to))]
fn moved(a: Arrival, place: usize, state: u8) -> Arrival
    ensures { result ≡ moved_to a place state }
{
    let at = if a.left != 0 && state == 1 {
        place
    } else {
        a.end
    };
    Arrival { at, ..a }
}

// The arrival goes on to the pair's next hop.
#[tactic(auto, unfolding(bench_promises::specs::Machine::next_arrival, bench_promises::specs::Machine::place_of_next))]
fn next(a: Arrival, hops: &[model::Hop]) -> Arrival
    ensures { result ≡ next_arrival a hops.now }
{
    let from = search_from(a);
    let end = search_end(a);
    let place = hops::next_of_pair(hops, a.sender, a.receiver, from, end);
    let state = hops::state_at(hops, place);
    moved(a, place, state)
}

// Takes the next hop of the pair while it is held, up to the arrival's number of copies.
fn settle(
    start: Arrival,
    tables: &[u32],
    messages: &[u32],
    pairs: &mut [Grid],
    hops: &mut [model::Hop],
    book: &mut [u16],
) -> Arrival
    ensures { (result ≡ (settled_from tables.now messages.now start pairs.old hops.old
        book.old).arrival)
        × (pairs.new ≡ (settled_from tables.now messages.now start pairs.old hops.old
        book.old).pairs)
        × (hops.new ≡ (settled_from tables.now messages.now start pairs.old hops.old
        book.old).hops)
        × (book.new ≡ (settled_from tables.now messages.now start pairs.old hops.old
        book.old).book) }
{
    let mut a = start;
    while is_going(a) {
        let b = take(a, tables, messages, pairs, hops, book);
        a = next(b, hops);
    }
    a
}

// What becomes of an arrival that is not turned away.
#[tactic(auto, unfolding(bench_promises::specs::Machine::finished_reply, model::specs::Rules::refuse))]
fn receipt(a: Arrival) -> Receipt
    ensures { ◌≡◌ {A = Result ReceiptOf Refusal} (Ok result) (finished_reply a) }
{
    if a.taken == 0 {
        Receipt::Held
    } else {
        Receipt::Taken(a.taken)
    }
}

// The totals once the arrival is over.
#[tactic(auto, unfolding(bench_promises::specs::Machine::finished_totals))]
fn totals_after(t: Totals, a: Arrival) -> Totals
    ensures { result ≡ finished_totals t a }
{
    if a.taken == 0 {
        t
    } else {
        Totals {
            made: a.made,
            taken: bench_store::plus(t.taken, a.taken),
            ..t
        }
    }
}

// The lists: the pair's hops taken, the length of the receiver's log.
#[tactic(auto, unfolding(bench_promises::specs::Machine::finished_pairs, bench_promises::specs::Machine::finished_gauges))]
fn update(a: Arrival, pairs: &mut [Grid], gauges: &mut [u16])
    ensures { (pairs.new ≡ finished_pairs a pairs.old) ×
        (gauges.new ≡ finished_gauges a gauges.old) }
{
    if a.taken != 0 {
        let s = a.sender as usize;
        let r = a.receiver as usize;
        counts::add(pairs, PairCounts::TAKEN, s, r, a.taken);
        Gauges::LENGTHS.set_number(gauges, r, a.length);
    }
}

// What `arrive` answers and leaves once the arrival is settled.
#[tactic(auto, unfolding(crate::specs::Steps::arrived_as))]
fn finished(t: Totals, a: Arrival, pairs: &mut [Grid], gauges: &mut [u16]) -> Arrived
    ensures { (result ≡ arrived_as t a)
        × (pairs.new ≡ finished_pairs a pairs.old)
        × (gauges.new ≡ finished_gauges a gauges.old) }
{
    update(a, pairs, gauges);
    let totals = totals_after(t, a);
    Arrived {
        totals,
        reply: Ok(receipt(a)),
    }
}

// A copy of a hop reaches its receiver.
pub fn arrive(
    t: Totals,
    hop: u16,
    tables: &[u32],
    messages: &mut [u32],
    pairs: &mut [Grid],
    gauges: &mut [u16],
    hops: &mut [model::Hop],
    book: &mut [u16],
) -> Arrived
    ensures { ArrivePromise (bench t tables.now messages.old pairs.old gauges.old)
        hop hops.old book.old result.reply
        (bench result.totals tables.now messages.new pairs.new gauges.new) hops.new
        book.new }
{
    if let Err(refusal) = check(t, hop, hops.len(), book.len()) {
        return Arrived {
            totals: t,
            reply: Err(refusal),
        };
    }
    let at = hop as usize;
    let record = hops::read(hops, at);
    if !is_out(record) {
        return Arrived {
            totals: t,
            reply: Ok(Receipt::Repeat),
        };
    }
    let taken = taken_of(record, pairs);
    hops::set_state(hops, at, 1);
    if is_held(taken, record) {
        return Arrived {
            totals: t,
            reply: Ok(Receipt::Held),
        };
    }
    let start = begun(t, at, record, taken, Limits::HOPS, pairs, gauges);
    let end = settle(start, tables, messages, pairs, hops, book);
    finished(t, end, pairs, gauges)
}

// One send: the message is recorded, and one hop made, from its source to the primary of its group.
ghost use Rattle.std.specs.Prelude.{◌≡◌, List, ℕ};
ghost use Rattle.bench_promises.specs.Machine.{send_refusal, sequence_of, first_hop, recorded_totals, recorded_messages};
ghost use Rattle.bench_promises.specs.Machine.{recorded_pairs};
ghost use Rattle.bench_promises.specs.State.{bench};
ghost use Rattle.bench_promises.specs.Promises.{SendPromise};
ghost use Rattle.bench_engine.specs.Steps.{send_number, sent_as};

use crate::Sent;
use bench_promises::{SendRefusal, Totals};
use bench_store::columns::Messages;
use bench_store::counts::{Grid, PairCounts};
use bench_store::{Limits, counts};

// Why a send is turned away, if it is.
#[tactic(auto, unfolding(bench_promises::specs::Machine::send_refusal, model::specs::Rules::refuse))]
fn check(t: Totals, source: u16, group: u16, hops: usize, tables: &[u32]) -> Result<(), SendRefusal>
    ensures { send_number result ≡ send_refusal t tables.now source group hops }
{
    if hops < Limits::HOPS {
        return Err(SendRefusal::ListTooShort);
    }
    if forest_tables::unit_count(tables) <= source as usize {
        return Err(SendRefusal::NoSuchUnit);
    }
    if forest_tables::group_count(tables) <= group as usize {
        return Err(SendRefusal::NoSuchGroup);
    }
    if Limits::MESSAGES <= t.sent as usize {
        return Err(SendRefusal::TooManyMessages);
    }
    let size = forest_tables::route_size(tables, group as usize);
    if Limits::HOPS < bench_store::plus(t.routed, size) as usize {
        return Err(SendRefusal::RoutesTooLong);
    }
    Ok(())
}

// The hop to the group's primary, of that number among the hops of its pair.
#[tactic(auto, unfolding(bench_promises::specs::Machine::first_hop))]
fn first_hop(t: Totals, source: u16, group: u16, sequence: u16, tables: &[u32]) -> model::Hop
    ensures { result ≡ first_hop t tables.now source group sequence }
{
    let top = forest_tables::primary(tables, group as usize);
    model::Hop {
        sender: bench_store::byte(source),
        receiver: top,
        sequence,
        message: bench_store::plus(t.sent, 1),
        state: 0,
    }
}

// The message is recorded.
#[tactic(auto, unfolding(bench_promises::specs::Machine::recorded_messages))]
fn record_message(t: Totals, source: u16, group: u16, word: u32, messages: &mut [u32])
    ensures { messages.new ≡ recorded_messages t source group word messages.old }
{
    let at = t.sent as usize;
    Messages::SOURCES.set_number(messages, at, source as u32);
    Messages::GROUPS.set_number(messages, at, group as u32);
    Messages::WORDS.set_number(messages, at, word);
}

// The hop to the group's primary is counted: its number among the hops of its pair.
#[tactic(auto, unfolding(bench_promises::specs::Machine::sequence_of, bench_promises::specs::Machine::recorded_pairs))]
fn count_hop(source: u16, group: u16, tables: &[u32], pairs: &mut [Grid]) -> u16
    ensures { (result ≡ sequence_of tables.now source group pairs.old)
        × (pairs.new ≡ recorded_pairs tables.now source group pairs.old) }
{
    let top = forest_tables::primary(tables, group as usize);
    counts::raise_by_value(pairs, PairCounts::MADE, source as usize, top as usize)
}

// The totals with the message and its hop.
#[tactic(auto, unfolding(bench_promises::specs::Machine::recorded_totals))]
fn recorded(t: Totals, group: u16, tables: &[u32]) -> Totals
    ensures { result ≡ recorded_totals t tables.now group }
{
    let size = forest_tables::route_size(tables, group as usize);
    Totals {
        made: bench_store::plus(t.made, 1),
        taken: t.taken,
        sent: bench_store::plus(t.sent, 1),
        routed: bench_store::plus(t.routed, size),
    }
}

// What a send that is not turned away answers, and the messages it leaves.
#[tactic(auto, unfolding(crate::specs::Steps::sent_as, bench_promises::specs::Machine::recorded_totals))]
fn finished(
    t: Totals,
    source: u16,
    group: u16,
    word: u32,
    tables: &[u32],
    messages: &mut [u32],
) -> Sent
    ensures { (result ≡ sent_as t tables.now group)
        × (messages.new ≡ recorded_messages t source group word messages.old) }
{
    record_message(t, source, group, word, messages);
    let totals = recorded(t, group, tables);
    Sent {
        totals,
        reply: Ok(totals.sent),
    }
}

// Sends a message from a source to a group.
pub fn send(
    t: Totals,
    source: u16,
    group: u16,
    word: u32,
    tables: &[u32],
    messages: &mut [u32],
    pairs: &mut [Grid],
    hops: &mut [model::Hop],
) -> Sent
    ensures { (gs : List ℕ) → SendPromise (bench t tables.now messages.old pairs.old gs)
        source group word hops.old result.reply
        (bench result.totals tables.now messages.new pairs.new gs) hops.new }
{
    if let Err(refusal) = check(t, source, group, hops.len(), tables) {
        return Sent {
            totals: t,
            reply: Err(refusal),
        };
    }
    let sequence = count_hop(source, group, tables, pairs);
    let hop = first_hop(t, source, group, sequence, tables);
    hops::append(hops, t.made as usize, hop);
    finished(t, source, group, word, tables, messages)
}

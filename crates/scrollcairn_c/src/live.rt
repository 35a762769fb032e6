// The live calls: a bench that the caller keeps, in lists of its own. Each list is a pointer and a length; of a longer one the rest stays.
ghost use Rattle.std.specs.Prelude.{List, ℕ};
ghost use Rattle.scrollcairn_c.specs.Live.{lists, OpenExported, SendExported, ArriveExported, LogExported, LengthExported};
ghost use Rattle.scrollcairn_c.specs.Live.{RestExported};

use crate::steps::Step;
use crate::{opening, steps};
use bench::Bench;
use bench_engine::Part;
use bench_promises::Totals;
use bench_store::Limits;
use bench_store::columns::{Gauges, Messages};
use bench_store::counts::{Grid, PairCounts};
use c_answers::replies;
use c_answers::replies::Reply;
use forest_tables::Tables;

// Makes a fresh bench on a forest, which it checks.
#[unsafe(no_mangle)]
pub extern "C" fn scrollcairn_open(
    units: usize,
    groups: &[u32],
    count: usize,
    parents: &[u8],
    tables: &mut [u32],
    messages: &mut [u32],
    pairs: &mut [Grid],
    gauges: &mut [u16],
    hops: &mut [model::Hop],
    book: &mut [u16],
) -> Step
    ensures { OpenExported units count groups.now parents.now
        (lists tables.old messages.old pairs.old gauges.old hops.old
        book.old) result
        (lists tables.new messages.new pairs.new gauges.new hops.new
        book.new) }
{
    let short = opening::is_short(
        groups.len(),
        parents.len(),
        tables.len(),
        messages.len(),
        pairs.len(),
        gauges.len(),
        hops.len(),
        book.len(),
    );
    match opening::look(short, units, groups, count, parents) {
        Ok(forest) => {
            let fresh = Bench::fresh(units, forest.groups, count, forest.parents, hops, book);
            opening::store(fresh, tables, messages, pairs, gauges);
            opening::step(replies::told(8, 0))
        }
        Err(refused) => opening::step(refused),
    }
}

// Sends a message.
#[unsafe(no_mangle)]
pub extern "C" fn scrollcairn_send(
    totals: Totals,
    source: u16,
    group: u16,
    word: u32,
    tables: &mut [u32],
    messages: &mut [u32],
    pairs: &mut [Grid],
    hops: &mut [model::Hop],
) -> Step
    ensures { (gauges book : List ℕ) → SendExported totals source group word
        (lists tables.old messages.old pairs.old gauges hops.old book) result
        (lists tables.new messages.new pairs.new gauges hops.new book) }
{
    if steps::is_send_short(tables.len(), messages.len(), pairs.len(), hops.len()) {
        return steps::short(totals);
    }
    let sent = bench_engine::send(
        totals,
        source,
        group,
        word,
        &tables[..Tables::SIZE],
        &mut messages[..Messages::SIZE],
        &mut pairs[..PairCounts::SIZE],
        &mut hops[..Limits::HOPS],
    );
    steps::after_send(sent)
}

// A copy of a hop reaches its receiver.
#[unsafe(no_mangle)]
pub extern "C" fn scrollcairn_arrive(
    totals: Totals,
    hop: u16,
    tables: &mut [u32],
    messages: &mut [u32],
    pairs: &mut [Grid],
    gauges: &mut [u16],
    hops: &mut [model::Hop],
    book: &mut [u16],
) -> Step
    ensures { ArriveExported totals hop
        (lists tables.old messages.old pairs.old gauges.old hops.old
        book.old) result
        (lists tables.new messages.new pairs.new gauges.new hops.new
        book.new) }
{
    if steps::is_arrive_short(
        tables.len(),
        messages.len(),
        pairs.len(),
        gauges.len(),
        hops.len(),
        book.len(),
    ) {
        return steps::short(totals);
    }
    let arrived = bench_engine::arrive(
        totals,
        hop,
        &tables[..Tables::SIZE],
        &mut messages[..Messages::SIZE],
        &mut pairs[..PairCounts::SIZE],
        &mut gauges[..Gauges::SIZE],
        &mut hops[..Limits::HOPS],
        &mut book[..Limits::BOOK],
    );
    steps::after_arrive(arrived)
}

// Where the log of a unit stands in the book.
#[unsafe(no_mangle)]
pub extern "C" fn scrollcairn_log(unit: u16, tables: &[u32], gauges: &[u16], book: &[u16]) -> Part
    ensures { LogExported unit tables.now gauges.now book.now result }
{
    if steps::is_log_short(tables.len(), gauges.len(), book.len()) {
        return Part {
            start: 0,
            length: 0,
        };
    }
    bench_engine::log_part(unit, &tables[..Tables::SIZE], &gauges[..Gauges::SIZE], book)
}

// The refusal of log, or the log's length.
#[unsafe(no_mangle)]
pub extern "C" fn scrollcairn_log_length(
    unit: u16,
    tables: &[u32],
    gauges: &[u16],
    book: &[u16],
) -> Reply
    ensures { LengthExported unit tables.now gauges.now book.now result }
{
    if steps::is_log_short(tables.len(), gauges.len(), book.len()) {
        return replies::refused(1);
    }
    let reply = bench_engine::log_length(
        unit,
        &tables[..Tables::SIZE],
        &gauges[..Gauges::SIZE],
        book,
    );
    Reply::from(reply)
}

// Is the bench at rest?
#[unsafe(no_mangle)]
pub extern "C" fn scrollcairn_rest(totals: Totals, hops: &[model::Hop]) -> Reply
    ensures { RestExported totals hops.now result }
{
    let reply = bench_engine::rest(totals, hops);
    steps::after_rest(reply)
}

// The calls that change nothing: is a bench at rest, and the log of a unit.
ghost use Rattle.std.specs.Prelude.{◌≡◌, List, ℕ};
ghost use Rattle.bench_promises.specs.declared.Totals.{Totals as BenchTotals};
ghost use Rattle.bench_promises.specs.Machine.{rest_reply, unless_refused, log_start, log_count};
ghost use Rattle.bench_promises.specs.State.{bench};
ghost use Rattle.bench_promises.specs.Promises.{RestPromise, LogPromise, LogPlace, PartPromise, LengthPromise};
ghost use Rattle.bench_store.specs.Values.{column_at};

use crate::Part;
use bench_promises::{ListTooShort, LogRefusal, LogReply, RestReply, Totals};
use bench_store::Limits;
use bench_store::columns::Gauges;

// What `rest` answers, lent so many hops.
#[tactic(auto, unfolding(bench_promises::specs::Machine::rest_reply, model::specs::Rules::refuse))]
fn rested(t: Totals, hops: usize) -> RestReply
    ensures { result ≡ rest_reply t hops }
{
    if hops < Limits::HOPS {
        Err(ListTooShort)
    } else {
        Ok(t.taken == t.made)
    }
}

// Is the bench at rest?
pub fn rest(t: Totals, hops: &[model::Hop]) -> RestReply
    ensures { (ts ms : List ℕ) (ps : List (List (List ℕ))) (gs : List ℕ)
        → RestPromise (bench t ts ms ps gs) hops.now result }
{
    rested(t, hops.len())
}

// The length of a unit's log.
fn length_of(unit: u16, gauges: &[u16]) -> u16
    ensures { result ≡ column_at gauges.now 0 32 unit }
{
    Gauges::LENGTHS.number(gauges, unit as usize)
}

// x, or 0 where log is turned away or the unit has no row.
#[tactic(auto, unfolding(bench_promises::specs::Machine::unless_refused, model::specs::Rules::refuse))]
fn unless_refused(unit: u16, tables: &[u32], book: usize, x: usize) -> usize
    ensures { result ≡ unless_refused tables.now unit book x }
{
    let at = unit as usize;
    if book < Limits::BOOK || forest_tables::unit_count(tables) <= at || Limits::UNITS <= at {
        0
    } else {
        x
    }
}

// Where the part starts that log hands back.
#[tactic(auto, unfolding(bench_promises::specs::Machine::log_start))]
fn start(unit: u16, tables: &[u32], book: usize) -> usize
    ensures { result ≡ log_start tables.now unit book }
{
    unless_refused(unit, tables, book, unit as usize * Limits::MESSAGES)
}

// How many numbers it has.
#[tactic(auto, unfolding(bench_promises::specs::Machine::log_count, model::specs::Rules::refuse))]
fn count(unit: u16, tables: &[u32], gauges: &[u16], book: usize) -> usize
    ensures { result ≡ log_count tables.now gauges.now unit book }
{
    let length = length_of(unit, gauges) as usize;
    let kept = if Limits::MESSAGES < length { 0 } else { length };
    unless_refused(unit, tables, book, kept)
}

// The log of a unit, as a part of the caller's book. Turned away, an empty part.
pub fn log<'a>(unit: u16, tables: &[u32], gauges: &[u16], book: &'a [u16]) -> &'a [u16]
    ensures promise { (t : BenchTotals) (ms : List ℕ) (ps : List (List (List ℕ)))
        → LogPromise (bench t tables.now ms ps gauges.now) unit book.now result.now }
    ensures place { (t : BenchTotals) (ms : List ℕ) (ps : List (List (List ℕ)))
        → LogPlace (bench t tables.now ms ps gauges.now) unit book.entry result }
{
    let lent = book.len();
    let start = start(unit, tables, lent);
    let count = count(unit, tables, gauges, lent);
    let end = start + count;
    &book[start..end]
}

// The same part by numbers, for a caller that keeps the book.
pub fn log_part(unit: u16, tables: &[u32], gauges: &[u16], book: &[u16]) -> Part
    ensures { (t : BenchTotals) (ms : List ℕ) (ps : List (List (List ℕ)))
        → PartPromise (bench t tables.now ms ps gauges.now) unit book.now result.start result.length }
{
    let lent = book.len();
    Part {
        start: start(unit, tables, lent),
        length: count(unit, tables, gauges, lent),
    }
}

// The refusal of `log`, or the log's length.
pub fn log_length(unit: u16, tables: &[u32], gauges: &[u16], book: &[u16]) -> LogReply
    ensures { (t : BenchTotals) (ms : List ℕ) (ps : List (List (List ℕ)))
        → LengthPromise (bench t tables.now ms ps gauges.now) unit book.now result }
{
    if book.len() < Limits::BOOK {
        return Err(LogRefusal::ListTooShort);
    }
    if forest_tables::unit_count(tables) <= unit as usize {
        return Err(LogRefusal::NoSuchUnit);
    }
    Ok(length_of(unit, gauges))
}

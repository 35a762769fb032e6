// A run from a fresh bench to its end.
ghost use Rattle.std.specs.Prelude.{◌≡◌, List, replicate};
ghost use Rattle.model.specs.declared.Hop.{Hop};
ghost use Rattle.model.specs.Network.{no_hop};
ghost use Rattle.runner.specs.Steps.{BenchRun};

use crate::{Printed, events, results};
use bench::Bench;
use bench_store::Limits;
use text::writing::Output;

// Runs the events of a list on a fresh bench, and prints. The lists of the bench are lent to the calls of `bench_engine`.
fn run_hops(
    units: usize,
    groups: [u32; Limits::GROUPS],
    count: usize,
    parents: [u8; Limits::UNITS],
    list: &[u32],
    hops: &mut [model::Hop],
    book: &mut [u16],
    out: &mut [u8],
) -> Printed
    ensures { BenchRun units count groups parents list.now hops.old book.old out.old
        result hops.new book.new out.new }
{
    let fresh = Bench::fresh(units, groups, count, parents, hops, book);
    let mut bench = fresh.bench;
    let mut output = Output { out, at: 0 };
    let end = events::run_events(
        events::begun(count, bench.totals),
        list,
        &bench.tables,
        &mut bench.messages,
        &mut bench.pairs.grids,
        &mut bench.gauges,
        hops,
        book,
        &mut output,
    );
    let rest = bench_engine::rest(end.totals, hops);
    results::finish(
        &mut output,
        end.totals,
        rest,
        &bench.tables,
        &bench.gauges,
        book,
    );
    Printed {
        bytes: output.at,
        taken: end.taken,
    }
}

// The same, with hops of its own.
pub fn run_bench(
    units: usize,
    groups: [u32; Limits::GROUPS],
    count: usize,
    parents: [u8; Limits::UNITS],
    list: &[u32],
    book: &mut [u16],
    out: &mut [u8],
) -> Printed
    ensures { (hops : List Hop) × BenchRun units count groups parents list.now (replicate 2000 no_hop)
        book.old out.old result hops book.new out.new }
{
    let mut hops = [model::Hop {
        sender: 0,
        receiver: 0,
        sequence: 0,
        message: 0,
        state: 0,
    }; Limits::HOPS];
    run_hops(units, groups, count, parents, list, &mut hops, book, out)
}

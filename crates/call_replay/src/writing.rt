// Hop records and a bench, written as numbers.
ghost use Rattle.std.specs.Prelude.{◌≡◌, [], ◌∷◌};
ghost use Rattle.text.specs.Writing.{Written, Writes};
ghost use Rattle.bench.specs.Lists.{lists_of};
ghost use Rattle.call_replay.specs.Rules.{hop_numbers};
ghost use Rattle.call_replay.specs.Claims.{total_numbers, rows_of, bench_out};

use bench::Bench;
use bench_promises::Totals;
use bench_store::counts::{Grid, PairCounts};
use bench_store::{Limits, counts};
use number_writer::put_widened;
use text::writing::Output;

// ---- into a list of 16-bit numbers

// A hop record.
#[tactic(auto, unfolding(crate::specs::Rules::hop_numbers))]
pub fn put_hop(output: &mut Output<u16>, hop: model::Hop)
    ensures { Writes (hop_numbers (hop ∷ [])) output.old output.new }
{
    output.items(&[
        u16::from(hop.sender),
        u16::from(hop.receiver),
        hop.sequence,
        hop.message,
        u16::from(hop.state),
    ]);
}

// ---- into a list of 32-bit numbers

// Counts of the pairs, row by row: those of hops made, or of hops taken. By place: `counts::row`, which tests the places, reads a row.
fn put_pairs(output: &mut Output<u32>, pairs: &[Grid], k: usize)
    ensures { Writes (rows_of 32 pairs.now k) output.old output.new }
{
    for sender in 0..Limits::UNITS {
        let row = counts::row(pairs, k, sender);
        put_widened(output, &row);
    }
}

// The hops made, the hops taken, the messages sent and their route sizes.
fn put_totals(output: &mut Output<u32>, totals: Totals)
    ensures { Writes (total_numbers totals) output.old output.new }
{
    put_widened(
        output,
        &[totals.made, totals.taken, totals.sent, totals.routed],
    );
}

// A bench: its totals, the length of each unit's log, the messages, the hops made and the hops taken of each pair.
pub fn put_bench(out: &mut [u32], bench: Bench) -> usize
    ensures { Written (bench_out (lists_of bench)) 0 out.old result out.new }
{
    let pairs = bench.pairs.grids();
    let mut output = Output { out, at: 0 };
    put_totals(&mut output, bench.totals);
    put_widened(&mut output, &bench.gauges);
    output.items(&bench.messages);
    put_pairs(&mut output, &pairs, PairCounts::MADE);
    put_pairs(&mut output, &pairs, PairCounts::TAKEN);
    output.at
}

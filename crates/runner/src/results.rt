// What is printed once the events were run: the logs, the hops, the rest.
ghost use Rattle.std.specs.Prelude.{◌≡◌, List, ℕ};
ghost use Rattle.bench_promises.specs.declared.Totals.{Totals as BenchTotals};
ghost use Rattle.bench_promises.specs.State.{bench};
ghost use Rattle.bench_promises.specs.Replies.{rest_answer};
ghost use Rattle.runner.specs.Steps.{UnitPut, LogsPut, says_rest, Finished};

use bench_promises::{RestReply, Totals};
use bench_store::Limits;
use text::writing::Output;

// The log of a unit. Here and below the lists of the bench that are read are lent apart, as `bench_engine::log` takes them.
fn put_unit(output: &mut Output<u8>, unit: u16, tables: &[u32], gauges: &[u16], book: &[u16])
    ensures same_list { output.new.out.ghost_name ≡ output.old.out.ghost_name }
    ensures log { (t : BenchTotals) (ms : List ℕ) (ps : List (List (List ℕ)))
        → UnitPut (bench t tables.now ms ps gauges.now) unit book.now output.old output.new }
{
    let log = bench_engine::log(unit, tables, gauges, book);
    output_lines::put_log(output, unit, log);
}

// The logs of the first units, at most 32.
fn put_logs(output: &mut Output<u8>, tables: &[u32], gauges: &[u16], book: &[u16])
    ensures same_list { output.new.out.ghost_name ≡ output.old.out.ghost_name }
    ensures logs { (t : BenchTotals) (ms : List ℕ) (ps : List (List (List ℕ)))
        → LogsPut (bench t tables.now ms ps gauges.now) book.now output.old output.new }
{
    let units = forest_tables::unit_count(tables).min(Limits::UNITS) as u16;
    for u in 0..units {
        put_unit(output, u, tables, gauges, book);
    }
}

// Does the reply say rest?
#[tactic(auto, unfolding(crate::specs::Steps::says_rest, bench_promises::specs::Replies::rest_answer))]
fn is_rest(reply: RestReply) -> bool
    ensures { result ≡ says_rest (rest_answer reply) }
{
    reply.unwrap_or(false)
}

// Prints the logs, the hops made and the rest.
pub fn finish(
    output: &mut Output<u8>,
    totals: Totals,
    rest: RestReply,
    tables: &[u32],
    gauges: &[u16],
    book: &[u16],
)
    ensures same_list { output.new.out.ghost_name ≡ output.old.out.ghost_name }
    ensures lines { (ms : List ℕ) (ps : List (List (List ℕ)))
        → Finished (bench totals tables.now ms ps gauges.now) rest book.now output.old output.new }
{
    put_logs(output, tables, gauges, book);
    output_lines::put_hops(output, totals.made);
    output_lines::put_rest(output, is_rest(rest));
}

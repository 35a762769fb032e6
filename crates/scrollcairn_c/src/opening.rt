// A bench opened: the forest is looked at, and the lists get those of a fresh bench.
ghost use Rattle.std.specs.Prelude.{◌≡◌};
ghost use Rattle.std.proofs.lemmas.List.Edits.{sets};
ghost use Rattle.scrollcairn_c.specs.Live.{open_short};
ghost use Rattle.scrollcairn_c.specs.Opening.{looked_at, opened_as};

use crate::steps;
use crate::steps::Step;
use bench::Fresh;
use bench_promises::Totals;
use bench_store::Limits;
use bench_store::counts::Grid;
use c_answers::replies;
use c_answers::replies::Reply;

// A forest that was looked at and is accepted: its groups and its parents.
#[derive(Clone, Copy)]
pub struct Opening {
    pub groups: [u32; Limits::GROUPS],
    pub parents: [u8; Limits::UNITS],
}

// Whether a lent list is too short. The lengths stand apart, as the lists do in the C call, whose parameters these are.
#[tactic(auto, unfolding(crate::specs::Live::open_short))]
pub fn is_short(
    groups: usize,
    parents: usize,
    tables: usize,
    messages: usize,
    pairs: usize,
    gauges: usize,
    hops: usize,
    book: usize,
) -> bool
    ensures { result ≡ open_short groups parents tables messages pairs gauges hops book }
{
    groups < Limits::GROUPS
        || parents < Limits::UNITS
        || steps::is_arrive_short(tables, messages, pairs, gauges, hops, book)
}

// ---- the forest

// Looks at a forest: at the first 24 groups and the first 32 parents. The parameters are the C call's.
pub fn look(
    short: bool,
    units: usize,
    groups: &[u32],
    count: usize,
    parents: &[u8],
) -> Result<Opening, Reply>
    ensures { result ≡ looked_at short units count groups.now parents.now }
{
    if short {
        return Err(replies::refused(1));
    }
    let mut table = [0u32; Limits::GROUPS];
    text::writing::put_all(&mut table, 0, groups);
    let mut drawn = [255u8; Limits::UNITS];
    text::writing::put_all(&mut drawn, 0, parents);
    let accepted = forest::check(units, table, count, drawn)?;
    Ok(Opening {
        groups: table,
        parents: accepted,
    })
}

// What the call answers.
#[tactic(auto, unfolding(crate::specs::Opening::opened_as, crate::specs::Opening::no_totals))]
pub fn step(reply: Reply) -> Step
    ensures { result ≡ opened_as reply }
{
    let totals = Totals {
        made: 0,
        taken: 0,
        sent: 0,
        routed: 0,
    };
    Step { totals, reply }
}

// ---- the lists

// The items of a list, at the start of another, as far as that reaches: copied at once, since an array of counts by value takes a frame of
// its own.
fn put_first<T: Copy>(list: &mut [T], items: &[T])
    ensures { list.new ≡ sets list.old 0 items.now }
{
    let end = items.len().min(list.len());
    list[..end].copy_from_slice(&items[..end]);
}

// The lists of a fresh bench, at the start of those lent, which are the C call's.
pub fn store(
    fresh: Fresh,
    tables: &mut [u32],
    messages: &mut [u32],
    pairs: &mut [Grid],
    gauges: &mut [u16],
)
    ensures { (tables.new ≡ sets tables.old 0 fresh.bench.tables)
        × (messages.new ≡ sets messages.old 0 fresh.bench.messages)
        × (pairs.new ≡ sets pairs.old 0 fresh.bench.pairs.grids)
        × (gauges.new ≡ sets gauges.old 0 fresh.bench.gauges) }
{
    put_first(tables, &fresh.bench.tables);
    put_first(messages, &fresh.bench.messages);
    put_first(pairs, &fresh.bench.pairs.grids);
    put_first(gauges, &fresh.bench.gauges);
}

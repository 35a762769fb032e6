// What the live calls answer, and whether a list that they are lent is too short.
ghost use Rattle.std.specs.Prelude.{◌≡◌};
ghost use Rattle.model.specs.Rules.{Refused};
ghost use Rattle.bench_promises.specs.Replies.{send_answer, arrive_answer, rest_answer};
ghost use Rattle.c_answers.specs.Replies.{answer_numbers, rest_numbers, reply_of};
ghost use Rattle.scrollcairn_c.specs.Live.{step_of, send_short, arrive_short, log_short};

use bench_promises::{RestReply, Totals};
use bench_store::Limits;
use bench_store::columns::{Gauges, Messages};
use bench_store::counts::PairCounts;
use c_answers::replies;
use c_answers::replies::Reply;
use forest_tables::Tables;

// The totals of the bench after a call, and its reply.
#[repr(C)]
#[derive(Clone, Copy)]
pub struct Step {
    pub totals: Totals,
    pub reply: Reply,
}

// What `send` says.
pub fn after_send(sent: bench_engine::Sent) -> Step
    ensures { result ≡ step_of sent.totals (answer_numbers (send_answer sent.reply)) }
{
    Step {
        totals: sent.totals,
        reply: Reply::from(sent.reply),
    }
}

// What `arrive` says.
pub fn after_arrive(arrived: bench_engine::Arrived) -> Step
    ensures { result ≡ step_of arrived.totals (answer_numbers (arrive_answer arrived.reply)) }
{
    Step {
        totals: arrived.totals,
        reply: Reply::from(arrived.reply),
    }
}

// What `rest` says.
pub fn after_rest(reply: RestReply) -> Reply
    ensures { result ≡ reply_of (rest_numbers (rest_answer reply)) }
{
    Reply::from(reply)
}

// What `send` and `arrive` say where a lent list is too short.
pub fn short(totals: Totals) -> Step
    ensures { result ≡ step_of totals (answer_numbers (Refused 1)) }
{
    Step {
        totals,
        reply: replies::refused(1),
    }
}

// Whether a list lent to `send` is too short. The lengths stand apart here and below, as the lists do in the C calls.
#[tactic(auto, unfolding(crate::specs::Live::send_short))]
pub fn is_send_short(tables: usize, messages: usize, pairs: usize, hops: usize) -> bool
    ensures { result ≡ send_short tables messages pairs hops }
{
    tables < Tables::SIZE
        || messages < Messages::SIZE
        || pairs < PairCounts::SIZE
        || hops < Limits::HOPS
}

// Whether a list lent to `arrive` is too short.
#[tactic(auto, unfolding(crate::specs::Live::arrive_short))]
pub fn is_arrive_short(
    tables: usize,
    messages: usize,
    pairs: usize,
    gauges: usize,
    hops: usize,
    book: usize,
) -> bool
    ensures { result ≡ arrive_short tables messages pairs gauges hops book }
{
    gauges < Gauges::SIZE || book < Limits::BOOK || is_send_short(tables, messages, pairs, hops)
}

// Whether a list lent to either log call is too short.
#[tactic(auto, unfolding(crate::specs::Live::log_short))]
pub fn is_log_short(tables: usize, lengths: usize, book: usize) -> bool
    ensures { result ≡ log_short tables lengths book }
{
    tables < Tables::SIZE || lengths < Gauges::SIZE || book < Limits::BOOK
}

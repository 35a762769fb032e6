// The bench by value. Its calls lend its arrays to the calls of `bench_engine`: no call has a code of its own. Only a fresh bench is made
// here.
#![tactic(auto)]

ghost use Rattle.std.specs.Prelude.{◌≡◌, cond, Err, Ok};
ghost use Rattle.bench_promises.specs.Machine.{is_short};
ghost use Rattle.bench_promises.specs.Promises.{FreshPromise, SendPromise, ArrivePromise, RestPromise, LogPromise, LogPlace};
ghost use Rattle.bench_promises.specs.Promises.{LengthPromise};
ghost use Rattle.bench.specs.Lists.{lists_of, empty_bench, fresh_reply};

use bench_promises::{
    ArriveReply, FreshReply, ListTooShort, LogReply, RestReply, SendReply, Totals,
};
use bench_store::Limits;
use bench_store::columns::{Gauges, Messages};
use bench_store::counts::PairCounts;
use forest_tables::Tables;

#[derive(Clone, Copy)]
pub struct Bench {
    pub totals: Totals,
    // what is computed of the forest
    pub tables: [u32; Tables::SIZE],
    // the columns of the messages
    pub messages: [u32; Messages::SIZE],
    // hops made and hops taken, by sender and receiver
    pub pairs: PairCounts,
    // the columns of the small numbers of each unit
    pub gauges: [u16; Gauges::SIZE],
}

// What `fresh` answers.
#[derive(Clone, Copy)]
pub struct Fresh {
    pub bench: Bench,
    pub reply: FreshReply,
}

// What `send` answers.
#[derive(Clone, Copy)]
pub struct Sent {
    pub bench: Bench,
    pub reply: SendReply,
}

// What `arrive` answers.
#[derive(Clone, Copy)]
pub struct Arrived {
    pub bench: Bench,
    pub reply: ArriveReply,
}

// A bench without messages and hops.
#[tactic(auto, unfolding(crate::specs::Lists::empty_bench, bench_store::specs::Values::no_counts))]
fn empty(
    units: usize,
    groups: [u32; Limits::GROUPS],
    count: usize,
    parents: [u8; Limits::UNITS],
) -> Bench
    ensures { result ≡ empty_bench units count groups parents }
{
    Bench {
        totals: Totals {
            made: 0,
            taken: 0,
            sent: 0,
            routed: 0,
        },
        tables: forest_tables::of(units, groups, count, parents),
        messages: [0; Messages::SIZE],
        pairs: PairCounts::new([[[0; Limits::UNITS]; Limits::UNITS]; 2]),
        gauges: [0; Gauges::SIZE],
    }
}

// Whether lent lists of these lengths are long enough.
#[tactic(auto, unfolding(crate::specs::Lists::fresh_reply, bench_promises::specs::Machine::is_short))]
fn check(hops: usize, book: usize) -> FreshReply
    ensures { result ≡ fresh_reply hops book }
{
    if hops < Limits::HOPS || book < Limits::BOOK {
        Err(ListTooShort)
    } else {
        Ok(())
    }
}

impl Bench {
    // A fresh bench on a forest. The hops and the log book are set to zeros.
    pub fn fresh(
        units: usize,
        groups: [u32; Limits::GROUPS],
        count: usize,
        parents: [u8; Limits::UNITS],
        hops: &mut [model::Hop],
        book: &mut [u16],
    ) -> Fresh
        ensures { FreshPromise units count groups parents hops.old book.old
            result.reply (lists_of result.bench) hops.new book.new }
    {
        let reply = check(hops.len(), book.len());
        if reply.is_ok() {
            hops::clear(hops, Limits::HOPS);
            bench_store::book::clear(book, Limits::BOOK);
        }
        Fresh {
            bench: empty(units, groups, count, parents),
            reply,
        }
    }

    // Sends a message from a source to a group.
    #[tactic(auto, unfolding(crate::specs::Lists::lists_of))]
    pub fn send(self, source: u16, group: u16, word: u32, hops: &mut [model::Hop]) -> Sent
        ensures { SendPromise (lists_of self) source group word hops.old result.reply (lists_of result.bench)
            hops.new }
    {
        let mut next = self;
        let told = bench_engine::send(
            next.totals,
            source,
            group,
            word,
            &next.tables,
            &mut next.messages,
            &mut next.pairs.grids,
            hops,
        );
        next.totals = told.totals;
        Sent {
            bench: next,
            reply: told.reply,
        }
    }

    // A copy of a hop reaches its receiver.
    #[tactic(auto, unfolding(crate::specs::Lists::lists_of))]
    pub fn arrive(self, hop: u16, hops: &mut [model::Hop], book: &mut [u16]) -> Arrived
        ensures { ArrivePromise (lists_of self) hop hops.old book.old
            result.reply (lists_of result.bench) hops.new book.new }
    {
        let mut left = self;
        let told = bench_engine::arrive(
            left.totals,
            hop,
            &left.tables,
            &mut left.messages,
            &mut left.pairs.grids,
            &mut left.gauges,
            hops,
            book,
        );
        left.totals = told.totals;
        Arrived {
            bench: left,
            reply: told.reply,
        }
    }

    // Is the bench at rest?
    #[tactic(auto, unfolding(crate::specs::Lists::lists_of))]
    pub fn rest(self, hops: &[model::Hop]) -> RestReply
        ensures { RestPromise (lists_of self) hops.now result }
    {
        bench_engine::rest(self.totals, hops)
    }

    // The log of a unit, as a part of the caller's book. Turned away, an empty part.
    #[tactic(auto, unfolding(crate::specs::Lists::lists_of))]
    pub fn log<'a>(self, unit: u16, book: &'a [u16]) -> &'a [u16]
        ensures promise { LogPromise (lists_of self) unit book.now result.now }
        ensures place { LogPlace (lists_of self) unit book.entry result }
    {
        bench_engine::log(unit, &self.tables, &self.gauges, book)
    }

    // The refusal of `log`, or the log's length.
    #[tactic(auto, unfolding(crate::specs::Lists::lists_of))]
    pub fn log_length(self, unit: u16, book: &[u16]) -> LogReply
        ensures { LengthPromise (lists_of self) unit book.now result }
    {
        bench_engine::log_length(unit, &self.tables, &self.gauges, book)
    }
}

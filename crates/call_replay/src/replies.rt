// What the calls answer, written as numbers.
ghost use Rattle.std.specs.Prelude.{◌≡◌};
ghost use Rattle.text.specs.Writing.{Writes};
ghost use Rattle.c_answers.specs.Replies.{three_of};
ghost use Rattle.call_replay.specs.Steps.{LogPut, LengthPut};

use bench::Bench;
use c_answers::replies;
use c_answers::replies::Reply;
use text::writing::Output;

// Three numbers.
#[tactic(auto, unfolding(c_answers::specs::Replies::three_of))]
pub fn put_three(output: &mut Output<u16>, reply: Reply)
    ensures { Writes (three_of reply) output.old output.new }
{
    output.items(&[reply.refusal, reply.kind, reply.value]);
}

// What log hands back.
pub fn put_log(output: &mut Output<u16>, bench: &Bench, unit: u16, book: &[u16])
    ensures { LogPut bench.now unit book.now output.old output.new }
{
    let log = bench.log(unit, book);
    put_three(output, replies::told(7, (log.len() % 65536) as u16));
    output.items(log);
}

// What the second log call answers.
pub fn put_length(output: &mut Output<u16>, bench: &Bench, unit: u16, book: &[u16])
    ensures { LengthPut bench.now unit book.now output.old output.new }
{
    let reply = bench.log_length(unit, book);
    put_three(output, Reply::from(reply));
}

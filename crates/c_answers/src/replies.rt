// The reply of a call on a bench, as three numbers of 16 bits.
ghost use Rattle.std.specs.Prelude.{◌≡◌, [], ◌∷◌};
ghost use Rattle.forest.specs.Calls.{refusal_numbers};
ghost use Rattle.bench_promises.specs.Replies.{send_answer, arrive_answer, rest_answer, log_answer};
ghost use Rattle.c_answers.specs.Replies.{three_of, answer_numbers, length_numbers, rest_numbers, open_numbers, low_bits};

use bench_promises::{
    ArriveRefusal, ArriveReply, ListTooShort, LogRefusal, LogReply, Receipt, RestReply,
    SendRefusal, SendReply,
};
use forest::Refusal;

// The number of a refusal, or 0; the kind of the reply; its value: numbers, since the reply goes to C.
#[repr(C)]
#[derive(Clone, Copy)]
pub struct Reply {
    pub refusal: u16,
    pub kind: u16,
    pub value: u16,
}

// A refusal by its number, with a value.
#[tactic(auto, unfolding(crate::specs::Replies::three_of))]
fn refused_with(number: u16, value: u16) -> Reply
    ensures { three_of result ≡ number ∷ 0 ∷ value ∷ [] }
{
    Reply {
        refusal: number,
        ..told(0, value)
    }
}

// A refusal by its number.
pub fn refused(number: u16) -> Reply
    ensures { three_of result ≡ number ∷ 0 ∷ 0 ∷ [] }
{
    refused_with(number, 0)
}

// A reply of this kind, with a value.
#[tactic(auto, unfolding(crate::specs::Replies::three_of))]
pub fn told(kind: u16, value: u16) -> Reply
    ensures { three_of result ≡ 0 ∷ kind ∷ value ∷ [] }
{
    Reply {
        refusal: 0,
        kind,
        value,
    }
}

// What `send` says.
impl From<SendReply> for Reply {
    ghost from_gives = { λ reply r. three_of r ≡ answer_numbers (send_answer reply) };

    #[tactic(auto, unfolding(crate::specs::Replies::answer_numbers, bench_promises::specs::Replies::send_answer))]
    fn from(reply: SendReply) -> Reply {
        match reply {
            Ok(message) => told(1, message),
            Err(SendRefusal::ListTooShort) => refused(1),
            Err(SendRefusal::NoSuchUnit) => refused(12),
            Err(SendRefusal::NoSuchGroup) => refused(13),
            Err(SendRefusal::TooManyMessages) => refused(14),
            Err(SendRefusal::RoutesTooLong) => refused(15),
        }
    }
}

// What `arrive` says.
impl From<ArriveReply> for Reply {
    ghost from_gives = { λ reply r. three_of r ≡ answer_numbers (arrive_answer reply) };

    #[tactic(auto, unfolding(crate::specs::Replies::answer_numbers, bench_promises::specs::Replies::arrive_answer))]
    fn from(reply: ArriveReply) -> Reply {
        match reply {
            Ok(Receipt::Taken(copies)) => told(4, copies),
            Ok(Receipt::Held) => told(3, 0),
            Ok(Receipt::Repeat) => told(2, 0),
            Err(ArriveRefusal::ListTooShort) => refused(1),
            Err(ArriveRefusal::NotMade) => refused(16),
        }
    }
}

// What the second log call says.
impl From<LogReply> for Reply {
    ghost from_gives = { λ reply r. three_of r ≡ length_numbers (log_answer reply) };

    #[tactic(auto, unfolding(crate::specs::Replies::length_numbers, bench_promises::specs::Replies::log_answer))]
    fn from(reply: LogReply) -> Reply {
        match reply {
            Ok(length) => told(5, length),
            Err(LogRefusal::ListTooShort) => refused(1),
            Err(LogRefusal::NoSuchUnit) => refused(17),
        }
    }
}

// What `rest` says: 1 for yes.
impl From<RestReply> for Reply {
    ghost from_gives = { λ reply r. three_of r ≡ rest_numbers (rest_answer reply) };

    #[tactic(auto, unfolding(crate::specs::Replies::rest_numbers, bench_promises::specs::Replies::rest_answer, model::specs::Network::bit))]
    fn from(reply: RestReply) -> Reply {
        match reply {
            Ok(yes) => told(6, u16::from(yes)),
            Err(ListTooShort) => refused(1),
        }
    }
}

// What a call that opens a bench says of a refused forest. A group is told by its lowest 16 bits.
impl From<Refusal> for Reply {
    ghost from_gives = { λ refusal r. three_of r ≡ open_numbers (low_bits (refusal_numbers refusal)) };

    #[tactic(auto, unfolding(crate::specs::Replies::open_numbers, crate::specs::Replies::low_bits, forest::specs::Calls::refusal_numbers))]
    fn from(refusal: Refusal) -> Reply {
        match refusal {
            Refusal::BadCounts => refused(5),
            Refusal::EmptyGroup => refused(4),
            Refusal::OutsideUnits => refused(6),
            Refusal::OwnAncestor => refused(10),
            Refusal::NoPrimary(group) => refused_with(11, (group % 65536) as u16),
        }
    }
}

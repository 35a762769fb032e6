// The answers of the calls for C: three numbers, of 64 bits, or of 16 for a call on a bench (`replies`).
#![tactic(auto)]

pub mod replies;

ghost use Rattle.forest.specs.Calls.{refusal_numbers};
ghost use Rattle.std.specs.Prelude.{◌≡◌, [], ◌∷◌};
ghost use Rattle.c_answers.specs.Answers.{numbers_of, refused_for};

use forest::Refusal;

// 0 or the number of a refusal, and two numbers more: numbers, since the answer goes to C.
#[derive(Clone, Copy)]
pub struct Answer {
    pub refusal: u64,
    pub first: u64,
    pub second: u64,
}

// An answer of these numbers.
#[tactic(auto, unfolding(crate::specs::Answers::numbers_of))]
pub fn told(refusal: u64, first: usize, second: usize) -> Answer
    ensures { numbers_of result ≡ refusal ∷ first ∷ second ∷ [] }
{
    Answer {
        refusal,
        first: first as u64,
        second: second as u64,
    }
}

// What a forest is refused for.
impl From<Refusal> for Answer {
    ghost from_gives = { λ refusal answer. numbers_of answer ≡ refused_for (refusal_numbers refusal) };

    #[tactic(auto, unfolding(crate::specs::Answers::refused_for, forest::specs::Calls::refusal_numbers))]
    fn from(refusal: Refusal) -> Answer {
        match refusal {
            Refusal::BadCounts => told(5, 0, 0),
            Refusal::EmptyGroup => told(4, 0, 0),
            Refusal::OutsideUnits => told(6, 0, 0),
            Refusal::OwnAncestor => told(10, 0, 0),
            Refusal::NoPrimary(group) => told(11, group, 0),
        }
    }
}

// What the calls answer, as three numbers. The types are other crates', so that no `From` can stand here.
ghost use Rattle.std.specs.Prelude.{◌≡◌, Err};
ghost use Rattle.forest.specs.Calls.{refusal as refusal_of, parents_of};
ghost use Rattle.benchfile.specs.Calls.{read_answer, write_answer};
ghost use Rattle.runner.specs.Printed.{run_answer, taken_in};
ghost use Rattle.c_answers.specs.Answers.{numbers_of, refused_for, unless_refused};
ghost use Rattle.scrollcairn_c.specs.Exported.{told_by};

use benchfile::ReadRefusal;
use c_answers::{Answer, told};
use forest::Refusal;
use runner::Printed;

// Stores an answer.
#[tactic(auto, unfolding(c_answers::specs::Answers::numbers_of))]
pub fn put(told: Answer, answer: &mut [u64; 3])
    ensures { answer.new ≡ numbers_of told }
{
    *answer = [told.refusal, told.first, told.second];
}

// What `run` says.
#[tactic(auto, unfolding(crate::specs::Exported::told_by, runner::specs::Printed::run_answer, runner::specs::Printed::taken_in))]
pub fn of_run(ran: Result<Printed, runner::ListTooShort>) -> Answer
    ensures { numbers_of result ≡ told_by (run_answer ran) (taken_in ran) }
{
    match ran {
        Ok(printed) => told(0, printed.bytes, usize::from(printed.taken)),
        Err(_) => told(1, 0, 0),
    }
}

// What `write` says.
#[tactic(auto, unfolding(crate::specs::Exported::told_by, c_answers::specs::Answers::refused_for, benchfile::specs::Calls::write_answer))]
pub fn of_write(written: Result<usize, benchfile::ListTooShort>) -> Answer
    ensures { numbers_of result ≡ told_by (write_answer written) 0 }
{
    match written {
        Ok(bytes) => told(0, bytes, 0),
        Err(_) => told(1, 0, 0),
    }
}

// Why `read` refuses a file.
#[tactic(auto, unfolding(crate::specs::Exported::told_by, c_answers::specs::Answers::refused_for, benchfile::specs::Calls::read_answer))]
pub fn of_unread(refusal: ReadRefusal) -> Answer
    ensures { numbers_of result ≡ told_by (read_answer (Err refusal)) 0 }
{
    match refusal {
        ReadRefusal::ListTooShort => told(1, 0, 0),
        ReadRefusal::FileTooLong => told(2, 0, 0),
        ReadRefusal::Faulty(at) => told(u64::from(at.fault.number()), at.line, 0),
    }
}

// Stores what the forest calls say: the parents of an accepted forest, and the answer.
pub fn put_forest(laid: Result<[u8; 32], Refusal>, parents: &mut [u8; 32], answer: &mut [u64; 3])
    ensures { (parents.new ≡ unless_refused (refusal_of laid) (parents_of laid) parents.old)
        × (answer.new ≡ refused_for (refusal_of laid)) }
{
    match laid {
        Ok(accepted) => {
            *parents = accepted;
            put(told(0, 0, 0), answer);
        }
        Err(refusal) => put(Answer::from(refusal), answer),
    }
}

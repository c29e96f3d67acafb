// What calls on units answer.

ghost use Rattle.std.specs.Prelude.{◌≡◌, ◌≢◌, IfSome, false, true};
ghost use Rattle.rv_emulate.specs.UnitAnswers.{moved_by, print_by, read_by};

use unit_calls::Printed;
use unit_io::{UnitsAnswer, UnitsRead};

/// The number of the answer of a call on a unit that is absent.
const ABSENT: u64 = 4;

/// The number that a call on a unit answers, and whether the call failed.
#[derive(Clone, Copy)]
pub(crate) struct Answer {
    pub(crate) number: u64,
    pub(crate) failed: bool,
}

fn done(number: u64) -> Answer
    ensures { result ≡ record { number = number; failed = false } }
{
    Answer {
        number,
        failed: false,
    }
}

fn failed(number: u64) -> Answer
    ensures { result ≡ record { number = number; failed = true } }
{
    Answer {
        number,
        failed: true,
    }
}

/// The answer of a rewind, a backspace or an end of file.
pub(crate) fn moved(answer: UnitsAnswer) -> Answer
    requires { answer ≢ UnitsAnswer.Memory }
    ensures answer { result ≡ moved_by answer }
    ensures failed { result.failed ≡ true → answer ≡ UnitsAnswer.Failed }
{
    match answer {
        UnitsAnswer::Ok => done(0),
        UnitsAnswer::Failed => failed(1),
        UnitsAnswer::Absent => done(ABSENT),
        UnitsAnswer::Memory => unreachable!(),
    }
}

/// The answer of a read.
pub(crate) fn read(answer: UnitsRead) -> Answer
    ensures answer { result ≡ read_by answer }
    ensures failed { result.failed ≡ true → answer ≡ UnitsRead.Failed }
{
    match answer {
        UnitsRead::Rec(_) => done(0),
        UnitsRead::End => done(1),
        UnitsRead::Failed => failed(2),
        UnitsRead::Absent => done(ABSENT),
    }
}

/// The answer of a print; none where there was no memory.
pub(crate) fn printed(answer: Printed) -> Option<Answer>
    ensures answer { result ≡ print_by answer }
    ensures failed { IfSome result (λ a. a.failed ≡ true → answer ≡ Printed.Failed) }
{
    match answer {
        Printed::Done => Some(done(0)),
        Printed::Failed => Some(failed(1)),
        Printed::Unfit => Some(done(2)),
        Printed::Real => Some(done(3)),
        Printed::Absent => Some(done(ABSENT)),
        Printed::Memory => None,
    }
}

// The statuses of answers.
ghost use Rattle.std.specs.Prelude.{◌≡◌};
ghost use Rattle.report.specs.Status.{answer_status};

use crate::answer::JobAnswer;
use crate::outcome::{self, Outcome};

/// The exit status of a run in which this is what a job answered and nothing else failed: 0 where the job was done, 2
/// where it was refused for a name or a file, 3 where files failed, 4 where the depot failed, 5 where what is stored is
/// not what was kept of it, 7 where a limit was reached, 8 where memory was wanted.
pub fn status_of(answer: &JobAnswer) -> u8
    ensures { result ≡ answer_status answer.now }
{
    match outcome::of_answer(answer) {
        Outcome::Ok => 0,
        Outcome::Taken | Outcome::NoStream | Outcome::NoInput | Outcome::Exists => 2,
        Outcome::InputFault | Outcome::OutputFault => 3,
        Outcome::DepotFault => 4,
        Outcome::Damaged { .. } | Outcome::Unlike { .. } => 5,
        Outcome::TooLong | Outcome::Full => 7,
        Outcome::Memory => 8,
    }
}

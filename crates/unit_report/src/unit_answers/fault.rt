//! Why a script has no answers.

ghost use Rattle.std.specs.Prelude.{◌≡◌};
ghost use Rattle.unit_report.specs.unit_answers.Fault.{fault_of};

use alias_query::AskFault;
use pta_base::OutOfMemory;

/// The first line at fault, by its number from 1; or want of memory.
#[derive(Clone, Copy, Debug, PartialEq, Eq)]
pub enum AnswersFault {
    Question(u32),
    OutOfMemory,
}

impl From<OutOfMemory> for AnswersFault {
    ghost use Rattle.unit_report.specs.declared.unit_answers.fault.AnswersFault.TheVariants.{OutOfMemory};

    ghost from_gives = { λ _ fault. fault ≡ OutOfMemory };

    fn from(_: OutOfMemory) -> Self {
        AnswersFault::OutOfMemory
    }
}

/// The fault of a script as one of its answers: the line's number alone.
pub(in crate::unit_answers) fn fault_of(fault: AskFault) -> AnswersFault
    ensures { result ≡ fault_of fault }
{
    match fault {
        AskFault::BadLine(number) => AnswersFault::Question(number),
        AskFault::NoName(number) => AnswersFault::Question(number),
        AskFault::OutOfMemory => AnswersFault::OutOfMemory,
    }
}

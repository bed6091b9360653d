ghost use Rattle.std.specs.Prelude.{◌≡◌};
ghost use Rattle.adp_main.specs.Faults.{reading_fault, status_of};
ghost use Rattle.adp_main.specs.Reporting.{grammar_refusal, pair_refusal, text_refusal};

use crate::status::Status;
use adp_io::JobFault;
use grammar_check::CheckError;
use grammar_text::TextError;
use lex_product::PairError;
use report::Fault;

/// The status that a run with this fault ends with.
pub fn status_of(fault: &Fault) -> Status
    ensures { result ≡ status_of fault.now }
{
    match fault {
        Fault::Usage => Status::Usage,
        Fault::Read => Status::ReadFault,
        Fault::Write => Status::WriteFault,
        Fault::TooLong | Fault::Text(_) => Status::Text,
        Fault::Grammar(_) => Status::Grammar,
        Fault::Limit { .. } => Status::Limit,
        Fault::Rejected { .. } => Status::Rejected,
        Fault::Memory => Status::Memory,
    }
}

/// The fault of an input that was not read.
pub fn reading_fault(fault: JobFault) -> Fault
    ensures { result ≡ reading_fault fault }
{
    match fault {
        JobFault::ReadFault => Fault::Read,
        JobFault::TooLong => Fault::TooLong,
        JobFault::Memory => Fault::Memory,
    }
}

/// The fault of bytes that were not read as a job.
pub(crate) fn text_refusal(error: TextError) -> Fault
    ensures { result ≡ text_refusal error }
{
    match error {
        TextError::Fault(fault) => Fault::Text(fault),
        TextError::Memory => Fault::Memory,
    }
}

/// The fault of a grammar that was not checked.
pub(crate) fn grammar_refusal(error: CheckError) -> Fault
    ensures { result ≡ grammar_refusal error }
{
    match error {
        CheckError::Fault(fault) => Fault::Grammar(fault),
        CheckError::Memory => Fault::Memory,
    }
}

/// The fault of two algebras that were not made a pair.
pub(crate) fn pair_refusal(error: PairError) -> Fault
    ensures { result ≡ pair_refusal error }
{
    match error {
        PairError::Fault(fault) => Fault::Grammar(fault),
        PairError::Memory => Fault::Memory,
    }
}

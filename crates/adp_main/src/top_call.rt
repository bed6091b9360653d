ghost use Rattle.std.specs.Prelude.{◌≡◌, ◌≤◌, map, length, IfErr, IfSome, IsErrOf, List, ℕ};
ghost use Rattle.std.specs.String.{string_bytes};
ghost use Rattle.verdicts.specs.Verdict.{IsVerdict};
ghost use Rattle.adp_main.specs.Certified.{WritesAccepted};
ghost use Rattle.adp_main.specs.Ending.{Ending, IsInput, ShowsFault};
ghost use Rattle.adp_main.specs.Faults.{fault_verdict, status_after};
ghost use Rattle.report.specs.Faults.{HasShortName};

use crate::answering::answer_bytes;
use crate::big::answer_big;
use crate::fault::{reading_fault, status_of};
use crate::status::Status;
use crate::verify::answer_certificate;
use adp_io::{Sink, Source, read_job, write_whole};
use command_words::{Usage, read_words};
use evaluators::Gate;
use report::{Fault, fault_line};
use std::alloc::Global;
use std::thread::Threads;
use verdicts::laws::{command_is_unique, verdict_is_unique, written_certificates_are_accepted};

/// Reads a job from `input` and writes the reports of its words to `out`, or the line of a fault to `err`. Where a
/// certificate stands before the job, it is checked. The words are those after the program's name. Evaluators run in
/// threads where there are any; the gate is passed before each load of a record word of the table that they share, and
/// told of each run whose report was written. Those that follow a schedule are stepped in this thread, and pass no gate.
pub fn run<R: Threads + Sync, S: Source, K: Sink, E: Sink, G: Gate>(
    rt: &R,
    alloc: Global,
    words: &[String],
    input: &mut S,
    out: &mut K,
    err: &mut E,
    gate: &mut G,
) -> Status
    ensures ending { Ending S.left S.faults S.calls S.asked K.held K.faults G.runs (map string_bytes words.now)
        input.old input.new out.old out.new gate.old gate.new result }
    ensures certified { result ≡ Status.Done
        → WritesAccepted (map string_bytes words.now) (K.held out.old) (K.held out.new) }
    ensures silent { result ≡ Status.Done → err.new ≡ err.old }
    ensures fault { (result ≡ Status.Done → ⊥) → ShowsFault (S.left input.old) (map string_bytes words.now) result
        (E.held err.old) (E.held err.new) (E.faults err.old) (E.faults err.new) }
{
    match answer(rt, alloc, words, input, out, gate) {
        Ok(()) => Status::Done,
        Err(fault) => {
            // A line that cannot be written changes nothing else.
            let _ = write_whole(err, fault_line(&fault).bytes());
            status_of(&fault)
        }
    }
}

/// Reads the job and writes its reports, or writes the report of the word that is made.
fn answer<R: Threads + Sync, S: Source, K: Sink, G: Gate>(
    rt: &R,
    alloc: Global,
    words: &[String],
    input: &mut S,
    out: &mut K,
    gate: &mut G,
) -> Result<(), Fault>
    ensures ending { Ending S.left S.faults S.calls S.asked K.held K.faults G.runs (map string_bytes words.now)
        input.old input.new out.old out.new gate.old gate.new (status_after result) }
    ensures certified { status_after result ≡ Status.Done
        → WritesAccepted (map string_bytes words.now) (K.held out.old) (K.held out.new) }
    ensures short { IfErr result HasShortName }
    ensures fault { IfErr result (λ fault. IfSome (fault_verdict fault)
        (λ verdict. (bytes : List ℕ) → IsInput (map string_bytes words.now) (S.left input.old) bytes
        → IsVerdict (map string_bytes words.now) bytes verdict)) }
{
    command_is_unique();
    verdict_is_unique();
    written_certificates_are_accepted();
    let command = match read_words(words) {
        Ok(command) => command,
        Err(Usage) => return Err(Fault::Usage),
    };
    if !command.reads_job() {
        return answer_big(rt, alloc, &command, out, gate);
    }
    let bytes = match read_job(alloc, input) {
        Ok(bytes) => bytes,
        Err(fault) => return Err(reading_fault(fault)),
    };
    if command.verifies() {
        answer_certificate(alloc, &command, &bytes, out)
    } else {
        answer_bytes(rt, alloc, &command, &bytes, out, gate)
    }
}

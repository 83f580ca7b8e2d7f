//! The report of an outcome: the exit status, and the line on standard error.
ghost use Rattle.std.specs.Prelude.{◌≡◌, ◌<◌, ◌-◌, ◌^◌, ◌++◌, codes, Err};
ghost use Rattle.cc_io.specs.Written.{word_text};
ghost use Rattle.cc_play.specs.Names.{PlayFault};
ghost use Rattle.cc_io.specs.FaultLine.{Told};
ghost use Rattle.cc_play.specs.Outcome.{line_of, refusal_line, status_of};

use crate::fault::PlayFault;
use cc_audit::Verdict;
use cc_io::{Pen, Sink, out_of_memory, told};
use cc_plan::PlanFault;

/// Reports what went wrong, and returns the status: 0 if the verdict is clean, 1 if the audit found a fault, 2 if the input
/// is refused, 3 if memory is, and 4 if a device fails.
#[tactic(auto, unfolding(crate::specs::Outcome::line_of))]
pub fn tell<E: Sink>(errors: &mut E, outcome: Result<Verdict, PlayFault>) -> u8
    requires { E.write_failures errors.old < 2 ^ 64 - 1 }
    ensures status { result ≡ status_of outcome }
    ensures told { Told (E.bytes_written errors.old) (E.bytes_written errors.new)
        (E.write_failures errors.old) (E.write_failures errors.new) (line_of outcome) }
{
    match outcome {
        Ok(Verdict::Clean) => told(errors, b"", 0),
        Ok(Verdict::Fault { .. }) => told(errors, b"", 1),
        Err(fault) => tell_fault(errors, fault),
    }
}

/// Reports why there is no verdict, and returns the status.
fn tell_fault<E: Sink>(errors: &mut E, fault: PlayFault) -> u8
    requires { E.write_failures errors.old < 2 ^ 64 - 1 }
    ensures status { result ≡ status_of (Err fault) }
    ensures told { Told (E.bytes_written errors.old) (E.bytes_written errors.new)
        (E.write_failures errors.old) (E.write_failures errors.new) (line_of (Err fault)) }
{
    match fault {
        PlayFault::Plan(fault) => refused(errors, fault),
        PlayFault::Read => told(errors, b"ccq: reading failed\n", 4),
        PlayFault::Write => told(errors, b"ccq: writing failed\n", 4),
        PlayFault::NoMemory => out_of_memory(errors),
    }
}

/// Reports why an input is refused, and returns the status.
#[tactic(auto, unfolding(crate::specs::Outcome::refusal_line))]
fn refused<E: Sink>(errors: &mut E, fault: PlanFault) -> u8
    requires { E.write_failures errors.old < 2 ^ 64 - 1 }
    ensures status { result ≡ status_of (Err (PlayFault.Plan fault)) }
    ensures told { Told (E.bytes_written errors.old) (E.bytes_written errors.new)
        (E.write_failures errors.old) (E.write_failures errors.new) (refusal_line fault) }
{
    match fault {
        PlanFault::NotJson => told(errors, b"ccq: plan refused: P1\n", 2),
        PlanFault::Shape => told(errors, b"ccq: plan refused: P2\n", 2),
        PlanFault::Range(key) => refused_key(errors, key.as_bytes()),
        PlanFault::UnknownPass(entry) => refused_entry(errors, entry as u64),
        PlanFault::NoMemory => out_of_memory(errors),
    }
}

/// Reports which key of a plan is out of its range, and returns the status.
fn refused_key<E: Sink>(errors: &mut E, key: &[u8]) -> u8
    requires { E.write_failures errors.old < 2 ^ 64 - 1 }
    ensures status { result ≡ 2 }
    ensures told { Told (E.bytes_written errors.old) (E.bytes_written errors.new)
        (E.write_failures errors.old) (E.write_failures errors.new)
        (codes "ccq: plan refused: P3 " ++ key.now ++ codes "\n") }
{
    let mut pen = Pen::new();
    pen.text(errors, b"ccq: plan refused: P3 ");
    pen.text(errors, key);
    pen.text(errors, b"\n");
    let _outcome = pen.finish(errors);
    2
}

/// Reports which schedule entry names an unknown pass, and returns the status.
fn refused_entry<E: Sink>(errors: &mut E, entry: u64) -> u8
    requires { E.write_failures errors.old < 2 ^ 64 - 1 }
    ensures status { result ≡ 2 }
    ensures told { Told (E.bytes_written errors.old) (E.bytes_written errors.new)
        (E.write_failures errors.old) (E.write_failures errors.new)
        (word_text (codes "ccq: plan refused: P4 at ") entry ++ codes "\n") }
{
    let mut pen = Pen::new();
    pen.word(errors, b"ccq: plan refused: P4 at ", entry);
    pen.text(errors, b"\n");
    let _outcome = pen.finish(errors);
    2
}

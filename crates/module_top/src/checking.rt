// The check of a transcript.
ghost use Rattle.std.specs.Prelude.{◌≡◌, ℕ, Option, Some, IfOk, OnErr};
ghost use Rattle.outside.specs.FilesContent.{FilesContent};
ghost use Rattle.stream_calls.specs.declared.limits.TheConstants.{CHUNK};
ghost use Rattle.transcript_report.specs.Checks.{Checks, ReadsLeft, WritesLeft};
ghost use Rattle.program_words.specs.Faults.{result_status};
ghost use Rattle.program_words.specs.Forms.{Check};
ghost use Rattle.module_top.specs.Outcomes.{IsOutcome};
ghost use Rattle.module_top.specs.Program.{check_status};

use engine_core::Engine;
use outside::{Sink, Source};
use program_words::RunFault;
use std::alloc::{AllocError, Global};
use stream_calls::CHUNK;
use transcript_pairs::Pairs;
use transcript_report::{Checked, check_transcript};

// Takes all the memory, and then checks. Without memory nothing is read or written.
fn take_and_check<S: Source, K: Sink>(
    alloc: Global,
    transcript: &mut S,
    verdict: &mut K,
) -> Result<Checked, AllocError>
    ensures checked { IfOk result (λ answer. Checks answer CHUNK
        (record { left = S.left transcript.old; gained = K.gained verdict.old })
        (record { left = S.left transcript.new; gained = K.gained verdict.new })) }
    ensures untouched { OnErr result ((transcript.new ≡ transcript.old) × (verdict.new ≡ verdict.old)) }
    ensures reads { IfOk result (λ answer. ReadsLeft answer (S.faults transcript.old) (S.faults transcript.new)) }
    ensures writes { IfOk result (λ answer. WritesLeft answer (K.faults verdict.old) (K.faults verdict.new)) }
{
    let mut pairs = Pairs::new(alloc)?;
    let mut chunk = vec![in alloc; 0; CHUNK]?;
    Ok(check_transcript(transcript, verdict, &mut pairs, &mut chunk))
}

// The fault for how the check ended, where it wasn't that all pairs are lawful steps.
fn result_of(answer: Checked) -> Result<(), RunFault>
    ensures { result_status result ≡ check_status answer }
{
    match answer {
        Checked::Lawful => Ok(()),
        Checked::Unlawful(_) => Err(RunFault::NotLawful),
        Checked::BadFrame(_) => Err(RunFault::BadFrame),
        Checked::Truncated => Err(RunFault::Truncated),
        Checked::ReadFault => Err(RunFault::ReadFailed),
        Checked::WriteFault => Err(RunFault::WriteFailed),
        Checked::Limit => Err(RunFault::StreamTooLong),
    }
}

/// Checks the transcript of a source. It has no files, and no engine has a part in it.
pub fn check_pairs<E: Engine, S: Source, K: Sink>(
    alloc: Global,
    transcript: &mut S,
    verdict: &mut K,
) -> Result<(), RunFault>
    ensures outcome { (engine : E) (files : Option FilesContent) (file_faults : ℕ) → IsOutcome E.calls engine files (Some Check) (result_status result)
        (record {
          source = transcript.old;
          sink = verdict.old;
          streams = record { left = S.left transcript.old; gained = K.gained verdict.old };
          file_faults = file_faults;
          read_faults = S.faults transcript.old;
          write_faults = K.faults verdict.old;
        })
        (record {
          source = transcript.new;
          sink = verdict.new;
          streams = record { left = S.left transcript.new; gained = K.gained verdict.new };
          file_faults = file_faults;
          read_faults = S.faults transcript.new;
          write_faults = K.faults verdict.new;
        }) }
{
    match take_and_check(alloc, transcript, verdict) {
        Ok(answer) => result_of(answer),
        Err(_) => Err(RunFault::OutOfMemory),
    }
}

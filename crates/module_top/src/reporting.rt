// The report of vector lines.
ghost use Rattle.std.specs.Prelude.{◌≡◌, ◌≢◌, ℕ, Option, Some, IfOk, OnErr};
ghost use Rattle.outside.specs.FilesContent.{FilesContent};
ghost use Rattle.stream_calls.specs.declared.limits.TheConstants.{CHUNK};
ghost use Rattle.vector_reports.specs.Reporting.{Reports, ReadsLeft, WritesLeft};
ghost use Rattle.program_words.specs.Faults.{result_status};
ghost use Rattle.program_words.specs.Forms.{Vectors};
ghost use Rattle.module_top.specs.Outcomes.{IsOutcome};
ghost use Rattle.module_top.specs.Program.{report_status};

use crate::limits::VECTOR_WORK;
use engine_core::Engine;
use line_input::Lines;
use outside::{Sink, Source};
use program_words::RunFault;
use std::alloc::{AllocError, Global};
use stream_calls::CHUNK;
use vector_reports::{Reported, report_vectors};

// Takes all the memory, and then reports. Without memory nothing is read or written.
fn take_and_report<E: Engine, S: Source, K: Sink>(
    alloc: Global,
    vectors: &mut S,
    report: &mut K,
    mut engine: E,
) -> Result<Reported, AllocError>
    ensures reported { IfOk result (λ answer. (last : E) × Reports E.calls answer CHUNK engine last
        (record { left = S.left vectors.old; gained = K.gained report.old })
        (record { left = S.left vectors.new; gained = K.gained report.new })) }
    ensures untouched { OnErr result ((vectors.new ≡ vectors.old) × (report.new ≡ report.old)) }
    ensures reads { IfOk result (λ answer. ReadsLeft answer (S.faults vectors.old) (S.faults vectors.new)) }
    ensures writes { IfOk result (λ answer. WritesLeft answer (K.faults report.old) (K.faults report.new)) }
{
    let mut lines = Lines::new(alloc)?;
    let mut work = vec![in alloc; 0; VECTOR_WORK]?;
    let mut chunk = vec![in alloc; 0; CHUNK]?;
    Ok(report_vectors(
        &mut engine,
        vectors,
        report,
        &mut lines,
        &mut work,
        &mut chunk,
    ))
}

// The fault for how the report ended, where it wasn't that all vectors passed.
fn result_of(answer: Reported) -> Result<(), RunFault>
    ensures { result_status result ≡ report_status answer }
{
    match answer {
        Reported::AllPassed => Ok(()),
        Reported::SomeFailed => Err(RunFault::VectorFailed),
        Reported::BadLine(_) => Err(RunFault::BadLine),
        Reported::ReadFault => Err(RunFault::ReadFailed),
        Reported::WriteFault => Err(RunFault::WriteFailed),
        Reported::Limit => Err(RunFault::StreamTooLong),
    }
}

/// Reports the vector lines of a source, by an engine. It has no files.
pub fn check_vectors<E: Engine, S: Source, K: Sink>(
    alloc: Global,
    vectors: &mut S,
    report: &mut K,
    engine: E,
) -> Result<(), RunFault>
    ensures outcome { (files : Option FilesContent) (file_faults : ℕ) → IsOutcome E.calls engine files (Some Vectors) (result_status result)
        (record {
          source = vectors.old;
          sink = report.old;
          streams = record { left = S.left vectors.old; gained = K.gained report.old };
          file_faults = file_faults;
          read_faults = S.faults vectors.old;
          write_faults = K.faults report.old;
        })
        (record {
          source = vectors.new;
          sink = report.new;
          streams = record { left = S.left vectors.new; gained = K.gained report.new };
          file_faults = file_faults;
          read_faults = S.faults vectors.new;
          write_faults = K.faults report.new;
        }) }
{
    match take_and_report(alloc, vectors, report, engine) {
        Ok(answer) => result_of(answer),
        Err(_) => Err(RunFault::OutOfMemory),
    }
}

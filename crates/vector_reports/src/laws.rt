//! A law of reports, the contract of a function without a body.
ghost use Rattle.vector_reports.specs.Runs.{HasOneReport};

use engine_core::Engine;

/// Whatever the engine answers, bytes have one report, and it ends in one way.
pub fn has_one_report<E: Engine>()
    ensures { (engine : E) → HasOneReport E.calls engine }
{}

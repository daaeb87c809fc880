//! Laws of verdicts, each the contract of a function without a body.
ghost use Rattle.transcript_report.specs.Laws.{HasOneVerdict, LawfulTells, UnlawfulTells};

/// The bytes of a transcript have one verdict, in whatever pieces they are read.
pub fn has_one_verdict()
    ensures { HasOneVerdict }
{}

/// The verdict is `Lawful` exactly where the bytes are whole pairs and these are lawful, and it has the number of the first pair that isn't.
pub fn verdicts_tell()
    ensures lawful { LawfulTells }
    ensures unlawful { UnlawfulTells }
{}

// Laws of transcripts, each the contract of a function without a body.
ghost use Rattle.transcript_check.specs.Laws.{YesIsLawful, NoIsFirstUnlawful, UnlawfulIsNotLawful, BlankedIsTheSameWalk, BlankedStaysLawful, WalkIsDetermined};

/// A checker's answers tell whether a transcript is lawful: it says yes to all pairs exactly where it is, and else its first no is to the
/// first pair that isn't lawful, counted from 1.
pub fn first_no_tells()
    ensures yes { YesIsLawful }
    ensures no { NoIsFirstUnlawful }
    ensures not_both { UnlawfulIsNotLawful }
{}

/// A transcript stays lawful where the bodies of EntryBytes and EntryCommit are replaced by others of the same length: a checker needs
/// no key.
pub fn entered_bytes_may_be_blanked()
    ensures walk { BlankedIsTheSameWalk }
    ensures lawful { BlankedStaysLawful }
{}

/// Where a walk leads is determined by the commands, the statuses and the error codes.
pub fn walks_are_determined()
    ensures { WalkIsDetermined }
{}

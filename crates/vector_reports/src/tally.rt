// The numbers of a report.
ghost use Rattle.std.specs.Prelude.{◌≡◌, ◌^◌, [], ◌∷◌};
ghost use Rattle.vector_reports.specs.Progress.{IsTally, tally_after};

use vector_suite::VectorRead;

/// How many lines there were, how many of them were vectors, and how many of these passed.
#[derive(Clone, Copy, Debug, PartialEq, Eq)]
pub struct Tally {
    pub lines: u64,
    pub checked: u64,
    pub passed: u64,
}

/// Counts a line that was found to be this.
pub fn count(tally: &mut Tally, read: VectorRead)
    requires { IsTally tally.old (2 ^ 63) }
    ensures { tally.new ≡ tally_after tally.old (read ∷ []) }
{
    tally.lines += 1;
    match read {
        VectorRead::Pass => {
            tally.checked += 1;
            tally.passed += 1;
        }
        VectorRead::Fail => tally.checked += 1,
        VectorRead::Comment => {}
        VectorRead::Bad => {}
    }
}

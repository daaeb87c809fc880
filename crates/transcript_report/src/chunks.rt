// The pairs of a chunk.
ghost use Rattle.std.specs.Prelude.{◌≡◌, ◌≤◌, ◌+◌, ◌++◌, ◌^◌, ℕ, List, length};
ghost use Rattle.transcript_pairs.specs.PairStreams.{HoldsPair, cleared_pair, held_length};
ghost use Rattle.transcript_report.specs.Progress.{AnswersPair, CheckedSoFar};
ghost use Rattle.transcript_report.specs.Verdicts.{ShowsBadFrame, ShowsUnlawful};

use transcript_check::Checker;
use transcript_pairs::{PairFed, Pairs};

/// What became of a chunk.
#[derive(Clone, Copy, Debug, PartialEq, Eq)]
pub enum ChunkEnd {
    /// All of it was checked.
    All,
    /// The last pair that was counted isn't lawful.
    Unlawful,
    /// The bytes show a fault at this place in the transcript, and the pairs before it are lawful.
    BadFrame(u64),
}

// Asks the checker of the pair that stands, and forgets it.
fn check_pair(checker: &mut Checker, pairs: &mut Pairs) -> bool
    requires { HoldsPair pairs.old }
    ensures answer { AnswersPair checker.old pairs.old result checker.new }
    ensures cleared { pairs.new ≡ cleared_pair pairs.old }
{
    let lawful = checker.step(pairs.command(), &pairs.head());
    pairs.clear();
    lawful
}

/// Checks each pair that a chunk ends, up to the first that isn't lawful, and counts them.
pub fn check_chunk(
    checker: &mut Checker,
    pairs: &mut Pairs,
    count: &mut u64,
    chunk: &[u8],
) -> ChunkEnd
    requires so_far { (taken : List ℕ) × CheckedSoFar taken checker.old count.old pairs.old }
    requires short { pairs.old.start + held_length pairs.old + length chunk.now ≤ 2 ^ 63 }
    requires few { count.old + length chunk.now ≤ 2 ^ 63 }
    ensures all { result ≡ ChunkEnd.All → (taken : List ℕ) → CheckedSoFar taken checker.old count.old pairs.old → CheckedSoFar (taken ++ chunk.now) checker.new count.new pairs.new }
    ensures unlawful { result ≡ ChunkEnd.Unlawful → (taken : List ℕ) → CheckedSoFar taken checker.old count.old pairs.old → ShowsUnlawful (taken ++ chunk.now) count.new }
    ensures bad_frame { (place : ℕ) → result ≡ ChunkEnd.BadFrame place → (taken : List ℕ) → CheckedSoFar taken checker.old count.old pairs.old → ShowsBadFrame (taken ++ chunk.now) place }
    ensures counted { result ≡ ChunkEnd.All → count.new ≤ count.old + length chunk.now }
{
    let mut done = 0;
    while done < chunk.len() {
        match pairs.feed(&chunk[done..]) {
            PairFed::More => return ChunkEnd::All,
            PairFed::BadFrame(place) => return ChunkEnd::BadFrame(place),
            PairFed::Whole(taken) => {
                *count += 1;
                if !check_pair(checker, pairs) {
                    return ChunkEnd::Unlawful;
                }
                done += taken;
            }
        }
    }
    ChunkEnd::All
}

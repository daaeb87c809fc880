// The verdict on a source's transcript.
ghost use Rattle.std.specs.Prelude.{◌≡◌, ◌≢◌, ◌<◌, ◌++◌, ℕ, List, Some, None, [], length, replicate};
ghost use Rattle.transcript_pairs.specs.PairStreams.{new_pair};
ghost use Rattle.transcript_report.specs.Verdicts.{IsVerdict};
ghost use Rattle.transcript_report.specs.Checks.{Checks, ReadsLeft, VerdictReached, WritesLeft};
ghost use Rattle.transcript_report.specs.Progress.{ReadCutOff, text_of};

use crate::chunks::{ChunkEnd, check_chunk};
use crate::text::write_text;
use outside::{Sink, Source};
use stream_calls::{STREAM_MAX, read_some};
use transcript_check::Checker;
use transcript_pairs::Pairs;

/// How the check of a transcript ended.
#[derive(Clone, Copy, Debug, PartialEq, Eq)]
pub enum Checked {
    /// The source was read to its end, and its transcript is lawful.
    Lawful,
    /// The pair of this number, counted from 1, is the first that isn't lawful.
    Unlawful(u64),
    /// The pairs are lawful, and the bytes behind them show a fault at this place in the transcript.
    BadFrame(u64),
    /// The pairs are lawful, and the source ended inside the one behind them.
    Truncated,
    /// The source failed. The bytes taken show no unlawful pair and no fault.
    ReadFault,
    /// The sink failed. A part of the verdict was written.
    WriteFault,
    /// 2^40 bytes were taken. They show no unlawful pair and no fault.
    Limit,
}

// Reads a transcript up to its verdict, and counts its pairs.
fn find_verdict<S: Source>(
    transcript: &mut S,
    pairs: &mut Pairs,
    count: &mut u64,
    chunk: &mut [u8],
) -> Checked
    requires new { pairs.old ≡ new_pair 0 None }
    requires none { count.old ≡ 0 }
    requires chunk { 0 < length chunk.old }
    ensures found { result ≢ Checked.ReadFault → VerdictReached result (length chunk.old) (text_of result count.new) (S.left transcript.old) (S.left transcript.new) }
    ensures read_fault { result ≡ Checked.ReadFault → ReadCutOff (S.left transcript.old) (S.left transcript.new) }
    ensures reads { ReadsLeft result (S.faults transcript.old) (S.faults transcript.new) }
    ensures size { length chunk.new ≡ length chunk.old }
{
    let mut checker = Checker::new();
    let mut taken: u64 = 0;
    while taken < STREAM_MAX {
        match read_some(transcript, chunk, STREAM_MAX - taken) {
            Err(_) => return Checked::ReadFault,
            Ok(0) => {
                if pairs.at_boundary() {
                    return Checked::Lawful;
                }
                return Checked::Truncated;
            }
            Ok(size) => {
                match check_chunk(&mut checker, pairs, count, &chunk[..size]) {
                    ChunkEnd::All => {}
                    ChunkEnd::Unlawful => return Checked::Unlawful(*count),
                    ChunkEnd::BadFrame(place) => return Checked::BadFrame(place),
                }
                taken += size as u64;
            }
        }
    }
    Checked::Limit
}

/// Reads a transcript, each command's frame followed by its reply's, and writes whether it is lawful: `lawful`, a space and the number of
/// its pairs, or `pair`, a space and the number of the first that isn't lawful, counted from 1, and LF. (The form is this project's own.)
/// `pairs` is new, and the chunk isn't empty. As it returns, no byte of a pair is held, and the chunk is zero.
///
/// Nothing is written where the frames show a fault before any unlawful pair, where the source ends inside a pair or fails, and where 2^40
/// bytes were taken; no more are asked for, and none once an unlawful pair or a fault shows.
pub fn check_transcript<S: Source, K: Sink>(
    transcript: &mut S,
    verdict: &mut K,
    pairs: &mut Pairs,
    chunk: &mut [u8],
) -> Checked
    requires new { pairs.old ≡ new_pair 0 None }
    requires chunk { 0 < length chunk.old }
    ensures checked { Checks result (length chunk.old)
        (record { left = S.left transcript.old; gained = K.gained verdict.old })
        (record { left = S.left transcript.new; gained = K.gained verdict.new }) }

    // Where source and sink tell their bytes and no call failed, it is the verdict on the content.
    ensures run { (bytes before : List ℕ) → S.left transcript.old ≡ Some bytes → K.gained verdict.old ≡ Some before → result ≢ Checked.ReadFault → result ≢ Checked.WriteFault →
        (text : List ℕ) × IsVerdict bytes result text × (K.gained verdict.new ≡ Some (before ++ text)) }

    // Each fault comes only where that object's count rose.
    ensures reads { ReadsLeft result (S.faults transcript.old) (S.faults transcript.new) }
    ensures writes { WritesLeft result (K.faults verdict.old) (K.faults verdict.new) }

    ensures cleared { (pairs.new.command ≡ []) × (pairs.new.head ≡ []) }
    ensures zero { chunk.new ≡ replicate (length chunk.old) 0 }
{
    let mut count = 0;
    let found = find_verdict(transcript, pairs, &mut count, chunk);
    pairs.clear();
    chunk.fill(0);
    match write_text(verdict, found, count) {
        Ok(_) => found,
        Err(_) => Checked::WriteFault,
    }
}

// The program, from its words, its files and its input to its exit status and its output.
ghost use Rattle.std.specs.Prelude.{◌≡◌, ◌≢◌, ◌↔◌, ◌++◌, ◌⊎◌, ℕ, List, Some, None, false, true, IfSome, map};
ghost use Rattle.std.specs.String.{string_bytes};
ghost use Rattle.outside.specs.Faults.{FaultCounted};
ghost use Rattle.outside.specs.FilesContent.{FilesContent};
ghost use Rattle.engine_core.specs.Calls.{IsStandard};
ghost use Rattle.program_words.specs.Faults.{is_refusal, result_status};
ghost use Rattle.program_words.specs.Forms.{FormValue, HasKeys, OnModule, form_of, names_value};
ghost use Rattle.module_works.specs.WorkOutcomes.{HasKeyBytes};
ghost use Rattle.module_top.specs.Program.{IsProgramOutput};
ghost use Rattle.module_top.specs.Outcomes.{reads_source, AreLoaded, HasLongImage, HasBadDigest, HasBadKeys, HasLongBackup, IsWorkOf, IsOutcome, ReadsStay};
ghost use Rattle.module_top.specs.Secrets.{OutputKeepsSecrets};

use crate::checking::check_pairs;
use crate::digesting::digest_image;
use crate::loading::{load_backup, load_digest, load_image, load_keys, open_noise};
use crate::reporting::check_vectors;
use bits_core::wipe;
use engine_core::Engine;
use module_works::do_work;
use outside::{Files, Sink, Source};
use program_words::{FileNames, Form, RunFault, Work, form_of};
use std::alloc::Global;

// Loads the backup, opens the noise, and does the work on a module with them, with this image, digest and keys.
fn work_with_keys<E: Engine, F: Files, S: Source, K: Sink>(
    alloc: Global,
    work: Work,
    names: FileNames<'_>,
    keys: &mut [u8],
    image: Vec<u8>,
    digest: [u8; 32],
    files: &mut F,
    commands: &mut S,
    replies: &mut K,
    engine: E,
) -> Result<(), RunFault>
    requires keys { HasKeyBytes work keys.old }
    // Where image, digest and keys are those of the names:
    ensures outcome { (text : List ℕ) → AreLoaded (F.content files.old) (names_value names.entry) image.items text digest keys.old →
        IsOutcome E.calls engine (F.content files.old) (Some (OnModule work (names_value names.entry))) (result_status result)
        (record {
          source = commands.old;
          sink = replies.old;
          streams = record { left = S.left commands.old; gained = K.gained replies.old };
          file_faults = F.faults files.old;
          read_faults = S.faults commands.old;
          write_faults = K.faults replies.old;
        })
        (record {
          source = commands.new;
          sink = replies.new;
          streams = record { left = S.left commands.new; gained = K.gained replies.new };
          file_faults = F.faults files.new;
          read_faults = S.faults commands.new;
          write_faults = K.faults replies.new;
        }) }
{
    let backup = load_backup(alloc, files, names.backup)?;
    let mut noise = open_noise(files, names.noise)?;
    do_work(
        alloc, work, keys, &backup, engine, image, digest, &mut noise, commands, replies,
    )
}

// Loads image, digest and keys, and does the work with them; however that ends, the keys are zero then.
fn work_on_files<E: Engine, F: Files, S: Source, K: Sink>(
    alloc: Global,
    work: Work,
    names: FileNames<'_>,
    files: &mut F,
    commands: &mut S,
    replies: &mut K,
    engine: E,
) -> Result<(), RunFault>
    requires keys { HasKeys work (names_value names) }
    ensures outcome { IsOutcome E.calls engine (F.content files.old) (Some (OnModule work (names_value names.entry))) (result_status result)
        (record {
          source = commands.old;
          sink = replies.old;
          streams = record { left = S.left commands.old; gained = K.gained replies.old };
          file_faults = F.faults files.old;
          read_faults = S.faults commands.old;
          write_faults = K.faults replies.old;
        })
        (record {
          source = commands.new;
          sink = replies.new;
          streams = record { left = S.left commands.new; gained = K.gained replies.new };
          file_faults = F.faults files.new;
          read_faults = S.faults commands.new;
          write_faults = K.faults replies.new;
        }) }
{
    let image = load_image(alloc, files, names.image)?;
    let digest = load_digest(alloc, files, names.digest)?;
    let mut keys = load_keys(alloc, files, names.keys)?;
    let done = work_with_keys(
        alloc, work, names, &mut keys, image, digest, files, commands, replies, engine,
    );
    wipe(&mut keys);
    done
}

// Does what the words say.
fn perform<E: Engine, F: Files, S: Source, K: Sink>(
    alloc: Global,
    words: &[String],
    files: &mut F,
    commands: &mut S,
    replies: &mut K,
    engine: E,
) -> Result<(), RunFault>
    ensures outcome { IsOutcome E.calls engine (F.content files.old) (form_of (map string_bytes words.now)) (result_status result)
        (record {
          source = commands.old;
          sink = replies.old;
          streams = record { left = S.left commands.old; gained = K.gained replies.old };
          file_faults = F.faults files.old;
          read_faults = S.faults commands.old;
          write_faults = K.faults replies.old;
        })
        (record {
          source = commands.new;
          sink = replies.new;
          streams = record { left = S.left commands.new; gained = K.gained replies.new };
          file_faults = F.faults files.new;
          read_faults = S.faults commands.new;
          write_faults = K.faults replies.new;
        }) }
    ensures no_file { form_of (map string_bytes words.now) ≡ None → files.new ≡ files.old }
{
    match form_of(words) {
        None => Err(RunFault::Usage),
        Some(Form::OnModule { work, names }) => {
            work_on_files(alloc, work, names, files, commands, replies, engine)
        }
        Some(Form::Digest { image }) => digest_image(alloc, image, files, replies, engine),
        Some(Form::Vectors) => check_vectors(alloc, commands, replies, engine),
        Some(Form::Check) => check_pairs::<E, S, K>(alloc, commands, replies),
    }
}

// The exit status for how the run ended.
fn status_of(ended: Result<(), RunFault>) -> u8
    ensures { result ≡ result_status ended }
{
    match ended {
        Ok(()) => 0,
        Err(fault) => fault.status(),
    }
}

/// Runs the program on the words after its name, with an engine, and answers its exit status.
///
/// `serve IMAGE DIGEST NOISE`: commands come from the source, and their replies go to the sink. The module has the image, the digest that
/// the digest file spells, and the noise. `digest IMAGE`: the image's digest goes to the sink, as 64 lower-case hex digits and an LF. The
/// image has at most 16,777,216 bytes, the digest file 64 hex digits of either case and at most one LF behind them.
/// `check`: a transcript comes from the source, each command's frame with its reply's behind it. Where all pairs are lawful steps, `lawful`
/// and their number go to the sink, else `pair` and the number of the first that isn't, counted from 1.
///
/// Words, image, digest file and noise are looked at in this order, and then memory is taken, before anything is read or written.
pub fn run<E: Engine, F: Files, S: Source, K: Sink>(
    alloc: Global,
    words: &[String],
    files: &mut F,
    commands: &mut S,
    replies: &mut K,
    engine: E,
) -> u8
    // Where no call fails and memory was found, status and written bytes are those of the definition, however the source hands
    // out its bytes.
    ensures output { (all : FilesContent) (bytes before : List ℕ) → F.content files.old ≡ Some all → S.left commands.old ≡ Some bytes →
        K.gained replies.old ≡ Some before → result ≢ 5 → result ≢ 6 → result ≢ 7 → result ≢ 8 →
        (out : List ℕ) × IsProgramOutput E.calls engine (map string_bytes words.now) all bytes result out × (K.gained replies.new ≡ Some (before ++ out)) }

    // With an engine that answers as the standards say, a run of `serve` and of `operate` keeps its secrets: for other input that differs
    // from this in entered parameters alone, the status is the same, and so is each reply to a command that observes nothing made from them.
    ensures secrets { IsStandard E.calls → (all : FilesContent) (bytes before : List ℕ) → F.content files.old ≡ Some all → S.left commands.old ≡ Some bytes →
        K.gained replies.old ≡ Some before → result ≢ 5 → result ≢ 6 → result ≢ 7 → result ≢ 8 →
        (out : List ℕ) × (K.gained replies.new ≡ Some (before ++ out))
        × OutputKeepsSecrets E.calls engine (map string_bytes words.now) (form_of (map string_bytes words.now)) all bytes result out }

    // Words that have no form are a faulty command line, and nothing else is. No file is looked at then.
    ensures usage { (result ≡ 2) ↔ (form_of (map string_bytes words.now) ≡ None) }
    ensures no_file { result ≡ 2 → files.new ≡ files.old }

    // A run that is refused leaves source and sink as they were, and so does one whose backup is; that of `digest` and of `session` leaves the source
    // in any case.
    ensures untouched { (is_refusal result ≡ true) ⊎ (result ≡ 15) → (commands.new ≡ commands.old) × (replies.new ≡ replies.old) }
    ensures source_stays { (form : FormValue) → form_of (map string_bytes words.now) ≡ Some form → reads_source form ≡ false → commands.new ≡ commands.old }

    // A file is refused exactly where it is too long or not of its form.
    ensures image_too_long { IfSome (F.content files.old) (λ all. result ≢ 7 → result ≢ 8 → (result ≡ 9) ↔ HasLongImage all (form_of (map string_bytes words.now))) }
    ensures bad_digest { IfSome (F.content files.old) (λ all. result ≢ 7 → result ≢ 8 → (result ≡ 11) ↔ HasBadDigest all (form_of (map string_bytes words.now))) }

    ensures bad_keys { IfSome (F.content files.old) (λ all. result ≢ 7 → result ≢ 8 → (result ≡ 13) ↔ HasBadKeys all (form_of (map string_bytes words.now))) }
    ensures backup_too_long { IfSome (F.content files.old) (λ all. result ≢ 7 → result ≢ 8 → HasLongBackup all (form_of (map string_bytes words.now)) → result ≡ 15) }

    // Else the work was done, or up to a failed call a part of it.
    ensures done { is_refusal result ≡ false → IsWorkOf E.calls engine (F.content files.old) (form_of (map string_bytes words.now)) result
        (record { left = S.left commands.old; gained = K.gained replies.old })
        (record { left = S.left commands.new; gained = K.gained replies.new }) }

    // A fault is answered exactly where a call of its object failed.
    ensures file_fault { result ≡ 8 → FaultCounted (F.faults files.old) (F.faults files.new) }
    ensures files_unchanged { result ≢ 8 → F.faults files.new ≡ F.faults files.old }
    ensures read_fault { result ≡ 5 → FaultCounted (S.faults commands.old) (S.faults commands.new) }
    ensures reads_unchanged { result ≢ 5 → ReadsStay (form_of (map string_bytes words.now)) result (S.faults commands.old) (S.faults commands.new) }
    ensures write_fault { result ≡ 6 → FaultCounted (K.faults replies.old) (K.faults replies.new) }
    ensures writes_unchanged { result ≢ 6 → K.faults replies.new ≡ K.faults replies.old }
{
    status_of(perform(alloc, words, files, commands, replies, engine))
}

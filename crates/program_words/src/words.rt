// The words after the program's name.
ghost use Rattle.std.specs.Prelude.{◌≡◌, ◌≤◌, IfSome, Some, None, if◌then◌else◌, bytes_eq, codes, map};
ghost use Rattle.std.specs.Option.{option_map};
ghost use Rattle.std.specs.String.{string_bytes};

use crate::limits::{LARGEST_COUNT, LARGEST_SEED};
use line_words::number_of;

/// A work on the module.
#[derive(Clone, Copy, Debug, PartialEq, Eq)]
pub enum Work {
    /// `serve`: commands come from the source as frames, and their replies go to the sink.
    Serve,
    /// `operate`: commands come from the source as lines, and their replies go to the sink as lines.
    Operate,
    /// `session`: the commands are those of a session, and its summary goes to the sink.
    Session { seed: u64, count: u32 },
    /// `backup`: commands come from the source as lines, and behind them the backup of what they have made goes to the sink.
    Backup,
    /// `restore`: as `operate`, from what a backup restores.
    Restore,
}

/// The names of the files of a work on the module.
#[derive(Clone, Copy, Debug, PartialEq, Eq)]
pub struct FileNames<'a> {
    /// The program's image.
    pub image: &'a str,
    /// The image's digest.
    pub digest: &'a str,
    /// The two keys of a backup, where the work has them.
    pub keys: Option<&'a str>,
    /// The backup, where the work has one.
    pub backup: Option<&'a str>,
    /// The noise.
    pub noise: &'a str,
}

/// A form of the words after the program's name, with the names of its files.
#[derive(Clone, Copy, Debug, PartialEq, Eq)]
pub enum Form<'a> {
    /// `serve IMAGE DIGEST NOISE`, `operate IMAGE DIGEST NOISE`, `session SEED COUNT IMAGE DIGEST NOISE`, `backup KEYS IMAGE DIGEST NOISE`
    /// or `restore KEYS BACKUP IMAGE DIGEST NOISE`.
    OnModule { work: Work, names: FileNames<'a> },
    /// `digest IMAGE`: the image's digest goes to the sink.
    Digest { image: &'a str },
    /// `vectors`: vector lines come from the source, and their report goes to the sink.
    Vectors,
    /// `check`: a transcript comes from the source, and the verdict on it goes to the sink.
    Check,
}

ghost use Rattle.program_words.specs.Forms.{Digest, HasItsFiles, backup_form, form_of, form_value, names_value, on_module, plain_names, six_words, session_work, single_form, spelled_number, stream_work};

// The number that a word spells.
fn spelled_number(word: &[u8], most: u64) -> Option<u64>
    ensures spelled { result ≡ spelled_number most word.now }
    ensures within { IfSome result (λ number. number ≤ most) }
{
    number_of(word, most)
}

// The work on commands that a word names.
fn stream_work(word: &str) -> Option<Work>
    ensures { result ≡ stream_work word.now }
{
    match word {
        "serve" => Some(Work::Serve),
        "operate" => Some(Work::Operate),
        _ => None,
    }
}

// The work of a session's words.
fn session_work(word: &str, seed: &str, count: &str) -> Option<Work>
    ensures { result ≡ session_work word.now seed.now count.now }
{
    if word != "session" {
        return None;
    }
    let seed = spelled_number(seed.as_bytes(), LARGEST_SEED)?;
    let count = spelled_number(count.as_bytes(), LARGEST_COUNT)? as u32;
    Some(Work::Session { seed, count })
}

// The names of the files that each work on the module has.
fn plain_names<'a>(image: &'a str, digest: &'a str, noise: &'a str) -> FileNames<'a>
    ensures { names_value result ≡ plain_names image.now digest.now noise.now }
{
    FileNames {
        image,
        digest,
        keys: None,
        backup: None,
        noise,
    }
}

// A work on the module with the files of these names.
fn on_module<'a>(work: Option<Work>, names: FileNames<'a>) -> Option<Form<'a>>
    ensures { option_map form_value result ≡ on_module (names_value names.entry) work }
{
    let work = work?;
    Some(Form::OnModule { work, names })
}

fn digest_form<'a>(word: &str, image: &'a str) -> Option<Form<'a>>
    ensures { option_map form_value result ≡ (if bytes_eq word.now (codes "digest") then Some (Digest image.now) else None) }
{
    if word == "digest" {
        Some(Form::Digest { image })
    } else {
        None
    }
}

// The form of one word alone.
fn single_form<'a>(word: &str) -> Option<Form<'a>>
    ensures { option_map form_value result ≡ single_form word.now }
{
    match word {
        "vectors" => Some(Form::Vectors),
        "check" => Some(Form::Check),
        _ => None,
    }
}

// The form of a backup's words.
fn backup_form<'a>(word: &str, keys: &'a str, names: FileNames<'a>) -> Option<Form<'a>>
    ensures { option_map form_value result ≡ backup_form word.now keys.now (names_value names.entry) }
{
    if word != "backup" {
        return None;
    }
    Some(Form::OnModule {
        work: Work::Backup,
        names: FileNames {
            keys: Some(keys),
            ..names
        },
    })
}

// The form of a word, two more, and the names that each work on the module has.
fn six_words<'a>(
    word: &str,
    first: &'a str,
    second: &'a str,
    names: FileNames<'a>,
) -> Option<Form<'a>>
    ensures { option_map form_value result ≡ six_words word.now first.now second.now (names_value names.entry) }
{
    if word != "restore" {
        return on_module(session_work(word, first, second), names);
    }
    Some(Form::OnModule {
        work: Work::Restore,
        names: FileNames {
            keys: Some(first),
            backup: Some(second),
            ..names
        },
    })
}

/// The form of the words. `None` where they have none, which is a faulty command line.
pub fn form_of(words: &[String]) -> Option<Form<'_>>
    ensures form { option_map form_value result ≡ form_of (map string_bytes words.now) }
    ensures files { IfSome result (λ form. HasItsFiles (form_value form)) }
{
    match words {
        [word] => single_form(word.as_str()),
        [word, image] => digest_form(word.as_str(), image.as_str()),
        [word, image, digest, noise] => on_module(
            stream_work(word.as_str()),
            plain_names(image.as_str(), digest.as_str(), noise.as_str()),
        ),
        [word, keys, image, digest, noise] => backup_form(
            word.as_str(),
            keys.as_str(),
            plain_names(image.as_str(), digest.as_str(), noise.as_str()),
        ),
        [word, first, second, image, digest, noise] => six_words(
            word.as_str(),
            first.as_str(),
            second.as_str(),
            plain_names(image.as_str(), digest.as_str(), noise.as_str()),
        ),
        _ => None,
    }
}

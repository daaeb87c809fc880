// The files that the words name.
ghost use Rattle.std.specs.Prelude.{◌≡◌, ◌≢◌, ◌≤◌, ℕ, List, Option, Some, None, IfSome, IfOk, IfErr, OnOk, length};
ghost use Rattle.std.specs.Option.{option_map};
ghost use Rattle.outside.specs.declared.traits.Sample.{Sample};
ghost use Rattle.outside.specs.Faults.{FaultCounted};
ghost use Rattle.outside.specs.FilesContent.{HasFile};
ghost use Rattle.vault_backup.specs.declared.limits.TheConstants.{BACKUP_MOST};
ghost use Rattle.program_words.specs.DigestFile.{digest_of};
ghost use Rattle.backup_runs.specs.TwoKeys.{AreKeys};
ghost use Rattle.backup_runs.specs.declared.limits.TheConstants.{KEYS_LENGTH};
ghost use Rattle.module_top.specs.Program.{HasNoise};
ghost use Rattle.module_top.specs.Outcomes.{AreKeysOf, IsNamedFile, ImageRefused, DigestRefused, KeysRefused, BackupRefused};

use crate::limits::{LARGEST_DIGEST_FILE, LARGEST_IMAGE};
use backup_runs::KEYS_LENGTH;
use bits_core::wipe;
use outside::{Files, LoadFault};
use program_words::{RunFault, digest_of};
use std::alloc::Global;
use vault_backup::BACKUP_MOST;

/// The image of this name.
pub fn load_image<F: Files>(alloc: Global, files: &mut F, name: &str) -> Result<Vec<u8>, RunFault>
    ensures fits { IfOk result (λ image. length image.items ≤ LARGEST_IMAGE) }
    ensures named { IfSome (F.content files.old) (λ all. IfOk result (λ image. HasFile all name.now image.items)) }
    ensures kept { F.content files.new ≡ F.content files.old }
    ensures faults_unchanged { OnOk result (F.faults files.new ≡ F.faults files.old) }
    ensures refused { IfErr result (λ fault. ImageRefused (F.content files.old) name.now fault (F.faults files.old) (F.faults files.new)) }
{
    match files.load(alloc, name, LARGEST_IMAGE) {
        Ok(image) => Ok(image),
        Err(LoadFault::TooLong) => Err(RunFault::ImageTooLong),
        Err(LoadFault::Failed) => Err(RunFault::FileFailed),
        Err(LoadFault::NoMemory) => Err(RunFault::OutOfMemory),
    }
}

/// The digest that the file of this name spells.
pub fn load_digest<F: Files>(alloc: Global, files: &mut F, name: &str) -> Result<[u8; 32], RunFault>
    ensures named { IfOk result (λ digest. (text : List ℕ) × (digest_of text ≡ Some digest) × IfSome (F.content files.old) (λ all. HasFile all name.now text)) }
    ensures kept { F.content files.new ≡ F.content files.old }
    ensures faults_unchanged { OnOk result (F.faults files.new ≡ F.faults files.old) }
    ensures refused { IfErr result (λ fault. DigestRefused (F.content files.old) name.now fault (F.faults files.old) (F.faults files.new)) }
{
    match files.load(alloc, name, LARGEST_DIGEST_FILE) {
        Ok(text) => digest_of(&text).ok_or(RunFault::BadDigest),
        Err(LoadFault::TooLong) => Err(RunFault::BadDigest),
        Err(LoadFault::Failed) => Err(RunFault::FileFailed),
        Err(LoadFault::NoMemory) => Err(RunFault::OutOfMemory),
    }
}

// The two keys, where these bytes are so many; else they are made zero.
fn two_keys(mut keys: Vec<u8>) -> Result<Vec<u8>, RunFault>
    ensures keys { IfOk result (λ loaded. (loaded.items ≡ keys.items) × AreKeys loaded.items) }
    ensures refused { IfErr result (λ fault. (fault ≡ RunFault.BadKeyFile) × (length keys.items ≢ KEYS_LENGTH)) }
{
    if keys.len() == KEYS_LENGTH {
        Ok(keys)
    } else {
        wipe(&mut keys);
        Err(RunFault::BadKeyFile)
    }
}

/// The two keys in the file of this name: 64 bytes. None where there is no name.
pub fn load_keys<F: Files>(
    alloc: Global,
    files: &mut F,
    name: Option<&str>,
) -> Result<Vec<u8>, RunFault>
    ensures keys { IfOk result (λ keys. AreKeysOf (option_map (λ n. n.now) name.entry) keys.items) }
    ensures named { IfSome (F.content files.old) (λ all. IfOk result (λ keys. IsNamedFile all (option_map (λ n. n.now) name.entry) keys.items)) }
    ensures kept { F.content files.new ≡ F.content files.old }
    ensures faults_unchanged { OnOk result (F.faults files.new ≡ F.faults files.old) }
    ensures refused { IfErr result (λ fault. KeysRefused (F.content files.old) (option_map (λ n. n.now) name.entry) fault (F.faults files.old) (F.faults files.new)) }
{
    let Some(name) = name else {
        return Ok(Vec::new(alloc));
    };
    match files.load(alloc, name, KEYS_LENGTH) {
        Ok(keys) => two_keys(keys),
        Err(LoadFault::TooLong) => Err(RunFault::BadKeyFile),
        Err(LoadFault::Failed) => Err(RunFault::FileFailed),
        Err(LoadFault::NoMemory) => Err(RunFault::OutOfMemory),
    }
}

/// The backup of this name, which may be refused yet. None where there is no name.
pub fn load_backup<F: Files>(
    alloc: Global,
    files: &mut F,
    name: Option<&str>,
) -> Result<Vec<u8>, RunFault>
    ensures fits { IfOk result (λ backup. length backup.items ≤ BACKUP_MOST) }
    ensures named { IfSome (F.content files.old) (λ all. IfOk result (λ backup. IsNamedFile all (option_map (λ n. n.now) name.entry) backup.items)) }
    ensures kept { F.content files.new ≡ F.content files.old }
    ensures faults_unchanged { OnOk result (F.faults files.new ≡ F.faults files.old) }
    ensures refused { IfErr result (λ fault. BackupRefused (F.content files.old) (option_map (λ n. n.now) name.entry) fault (F.faults files.old) (F.faults files.new)) }
{
    let Some(name) = name else {
        return Ok(Vec::new(alloc));
    };
    match files.load(alloc, name, BACKUP_MOST) {
        Ok(backup) => Ok(backup),
        Err(LoadFault::TooLong) => Err(RunFault::BadBackup),
        Err(LoadFault::Failed) => Err(RunFault::FileFailed),
        Err(LoadFault::NoMemory) => Err(RunFault::OutOfMemory),
    }
}

/// The noise of this name.
pub fn open_noise<F: Files>(files: &mut F, name: &str) -> Result<F::Stream, RunFault>
    ensures named { IfSome (F.content files.old) (λ all. IfOk result (λ stream.
        (events : List Sample) × HasNoise all name.now events × (F.Stream.left stream ≡ Some events))) }
    ensures faults_unchanged { OnOk result (F.faults files.new ≡ F.faults files.old) }
    ensures refused { IfErr result (λ fault. (fault ≡ RunFault.FileFailed) × FaultCounted (F.faults files.old) (F.faults files.new)) }
{
    match files.noise(name) {
        Ok(noise) => Ok(noise),
        Err(_) => Err(RunFault::FileFailed),
    }
}

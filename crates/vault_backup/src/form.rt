// Whether bytes are of a backup's form, and its parts.
ghost use Rattle.std.specs.Prelude.{◌≡◌, ◌≤◌, ◌-◌, ◌↔◌, length, take, drop, IsTrue};
ghost use Rattle.bits_core.specs.declared.algorithm.Alg.TheVariants.{Sha256};
ghost use Rattle.hmac_core.specs.Hmac.{hmac};
ghost use Rattle.vault_backup.specs.BackupForm.{HasForm};
ghost use Rattle.vault_backup.specs.Reading.{HasRecordsFrom};

use crate::limits::{BACKUP_LEAST, FRONT, MAGIC, TAG};
use crate::record::read_record;
use bits_core::{Alg, same};
use hmac_core::MacStream;

/// Whether the bytes are of a backup's form, whatever its tag and its wrapped parts are.
pub fn is_backup(bytes: &[u8]) -> bool
    ensures { IsTrue result ↔ HasForm bytes.now }
{
    if bytes.len() < BACKUP_LEAST {
        return false;
    }
    if !same(&bytes[..4], &MAGIC) {
        return false;
    }
    are_records(records_in(bytes), bytes[4])
}

/// The records of a backup: what stands between its front and its tag.
pub fn records_in(bytes: &[u8]) -> &[u8]
    requires { BACKUP_LEAST ≤ length bytes.now }
    ensures { result.now ≡ take (length bytes.now - 37) (drop 5 bytes.now) }
{
    &bytes[FRONT..bytes.len() - TAG]
}

/// Whether the last 32 bytes are the MAC of those before them.
pub fn has_tag(mac: &[u8; 32], bytes: &[u8]) -> bool
    requires { BACKUP_LEAST ≤ length bytes.now }
    ensures { IsTrue result ↔ (drop (length bytes.now - 32) bytes.now ≡ hmac Sha256 mac.now (take (length bytes.now - 32) bytes.now)) }
{
    let (signed, tag) = bytes.split_at(bytes.len() - TAG);
    let mut stream = MacStream::new(Alg::Sha256, mac);
    stream.update(signed);
    same(tag, &stream.finish_leftmost())
}

// Whether the bytes are so many records, and nothing more, whose slots' numbers rise.
fn are_records(bytes: &[u8], count: u8) -> bool
    ensures { IsTrue result ↔ HasRecordsFrom 0 count bytes.now }
{
    let mut at = 0;
    let mut least = 0;
    for _ in 0..count {
        let Some(head) = read_record(bytes, at) else {
            return false;
        };
        if head.slot.get() < least {
            return false;
        }
        least = head.slot.get() + 1;
        at += head.whole_length();
    }
    at == bytes.len()
}

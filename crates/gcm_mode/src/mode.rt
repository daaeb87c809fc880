//! Sealing and opening.
ghost use Rattle.std.specs.Prelude.{◌≡◌, ◌↔◌, ℕ, List, ◌<◌, ◌≤◌, length, take, IsTrue, IsFalse};
ghost use Rattle.bits_core.specs.ByteList.{zeros};
ghost use Rattle.gcm_mode.specs.Gcm.{gcm_encrypt, gcm_tag, gcm_text, IsIv, IsSealable, IsTagLength};
ghost use Rattle.gcm_mode.specs.Filled.{IsFilled, IsReady};

use crate::Prepared;
use crate::blocks::{first_counter, next_counter, tag_of};
use aes_core::gctr;
use bits_core::{same, wipe};

/// Encrypts `text` in place and writes the full tag over it and `aad` (SP 800-38D, section 7.1).
///
/// `prepared` was filled. The IV has 1 to 255 bytes; `aad` and `text` have at most 65,664 bytes each, and either may be
/// empty: limits of this project's own.
pub fn seal(prepared: &Prepared, iv: &[u8], aad: &[u8], text: &mut [u8], tag: &mut [u8; 16])
    requires ready { IsReady prepared.now }
    requires iv { IsIv iv.now }
    requires aad { IsSealable aad.now }
    requires text { IsSealable text.old }
    ensures ciphertext { (key : List ℕ) → IsFilled prepared.now key
        → text.new ≡ (gcm_encrypt key iv.now aad.now text.old).ciphertext }
    ensures tag { (key : List ℕ) → IsFilled prepared.now key
        → tag.new ≡ (gcm_encrypt key iv.now aad.now text.old).tag }
{
    let counter = first_counter(prepared, iv);
    gctr(&prepared.schedule, &next_counter(counter), text);
    *tag = tag_of(prepared, &counter, aad, text);
}

/// Opens the ciphertext `text` in place, where `tag` is the leftmost part of its tag (SP 800-38D, section 7.2).
///
/// The tag is compared before any plaintext is written, and each of its bytes is looked at whatever the earlier ones
/// were. Where it differs the answer is false and `text` is all zero: rules of this project's own. The lengths are those
/// of `seal`; the tag has 12 to 16 bytes (section 5.2.1.2).
pub fn open(prepared: &Prepared, iv: &[u8], aad: &[u8], text: &mut [u8], tag: &[u8]) -> bool
    requires ready { IsReady prepared.now }
    requires iv { IsIv iv.now }
    requires aad { IsSealable aad.now }
    requires text { IsSealable text.old }
    requires tag { IsTagLength (length tag.now) }
    ensures answer { (key : List ℕ) → IsFilled prepared.now key
        → IsTrue result ↔ (tag.now ≡ take (length tag.now) (gcm_tag key iv.now aad.now text.old)) }
    ensures decrypted { (key : List ℕ) → IsFilled prepared.now key → IsTrue result
        → text.new ≡ gcm_text key iv.now text.old }
    ensures opened { (key : List ℕ) → IsFilled prepared.now key → IsTrue result
        → (gcm_encrypt key iv.now aad.now text.new).ciphertext ≡ text.old }
    ensures refused { IsFalse result → text.new ≡ zeros (length text.old) }
{
    let counter = first_counter(prepared, iv);
    let mut full = tag_of(prepared, &counter, aad, text);
    let authentic = same(&full[..tag.len()], tag);
    wipe(&mut full);
    if authentic {
        gctr(&prepared.schedule, &next_counter(counter), text);
    } else {
        wipe(text);
    }
    authentic
}

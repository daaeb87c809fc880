//! The standards' calls on a prepared key, by what they give for the key that filled it.
ghost use Rattle.std.specs.Prelude.{◌≡◌, ℕ, List, length, take};
ghost use Rattle.gcm_mode.specs.Filled.{IsFilled};
ghost use Rattle.gcm_mode.specs.Gcm.{gcm_encrypt, IsIv, IsSealable, IsTagLength};
ghost use Rattle.engine_core.specs.Inputs.{IsUnwrappable, IsWrappable};
ghost use Rattle.engine_core.specs.Standards.{gcm_decrypt, unwrapped_in_buffer, wrapped_in_buffer};

use gcm_mode::Prepared;

/// Wraps the first `length` bytes of `buf` (SP 800-38F, 6.2, and with padding 6.3).
pub(crate) fn wrap(pad: bool, prepared: &Prepared, buf: &mut [u8; 80], length: usize) -> usize
    requires filled { (key : List ℕ) × IsFilled prepared.now key }
    requires length { IsWrappable pad length }
    ensures size { (key : List ℕ) → IsFilled prepared.now key → result ≡ (wrapped_in_buffer pad key (take length buf.old)).size }
    ensures buf { (key : List ℕ) → IsFilled prepared.now key → buf.new ≡ (wrapped_in_buffer pad key (take length buf.old)).buf }
{
    prepared.filled_is_ready();
    if pad {
        key_wrap::wrap_pad(prepared.schedule(), buf, length)
    } else {
        key_wrap::wrap(prepared.schedule(), buf, length)
    }
}

/// Unwraps the first `length` bytes of `buf` (SP 800-38F, 6.2, and with padding 6.3).
pub(crate) fn unwrap(
    pad: bool,
    prepared: &Prepared,
    buf: &mut [u8; 80],
    length: usize,
) -> Option<usize>
    requires filled { (key : List ℕ) × IsFilled prepared.now key }
    requires length { IsUnwrappable pad length }
    ensures size { (key : List ℕ) → IsFilled prepared.now key → result ≡ (unwrapped_in_buffer pad key (take length buf.old)).size }
    ensures buf { (key : List ℕ) → IsFilled prepared.now key → buf.new ≡ (unwrapped_in_buffer pad key (take length buf.old)).buf }
{
    prepared.filled_is_ready();
    if pad {
        key_wrap::unwrap_pad(prepared.schedule(), buf, length)
    } else {
        key_wrap::unwrap(prepared.schedule(), buf, length)
    }
}

/// Opens the ciphertext `text` in place (SP 800-38D, 7.2).
pub(crate) fn open(prepared: &Prepared, iv: &[u8], aad: &[u8], text: &mut [u8], tag: &[u8]) -> bool
    requires filled { (key : List ℕ) × IsFilled prepared.now key }
    requires iv { IsIv iv.now }
    requires aad { IsSealable aad.now }
    requires text { IsSealable text.old }
    requires tag { IsTagLength (length tag.now) }
    ensures answer { (key : List ℕ) → IsFilled prepared.now key
        → result ≡ (gcm_decrypt key iv.now aad.now text.old tag.now).authentic }
    ensures text { (key : List ℕ) → IsFilled prepared.now key → text.new ≡ (gcm_decrypt key iv.now aad.now text.old tag.now).text }
{
    prepared.filled_is_ready();
    gcm_mode::open(prepared, iv, aad, text, tag)
}

/// Encrypts `text` in place and writes its tag (SP 800-38D, 7.1).
pub(crate) fn seal(prepared: &Prepared, iv: &[u8], aad: &[u8], text: &mut [u8], tag: &mut [u8; 16])
    requires filled { (key : List ℕ) × IsFilled prepared.now key }
    requires iv { IsIv iv.now }
    requires aad { IsSealable aad.now }
    requires text { IsSealable text.old }
    ensures ciphertext { (key : List ℕ) → IsFilled prepared.now key → text.new ≡ (gcm_encrypt key iv.now aad.now text.old).ciphertext }
    ensures tag { (key : List ℕ) → IsFilled prepared.now key → tag.new ≡ (gcm_encrypt key iv.now aad.now text.old).tag }
{
    prepared.filled_is_ready();
    gcm_mode::seal(prepared, iv, aad, text, tag);
}

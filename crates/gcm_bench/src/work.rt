//! What is measured.
ghost use Rattle.std.specs.Prelude.{◌≡◌, ◌≤◌, length, vec_len, IfOk};
ghost use Rattle.bits_core.specs.declared.limits.TheConstants.{LARGEST_PAYLOAD};
ghost use Rattle.gcm_mode.specs.Filled.{IsReady};

use gcm_mode::{Prepared, open, seal};
use std::alloc::{AllocError, Global};

/// The additional data: as many bytes as TLS has, and as OpenSSL measures with.
const HEADER: [u8; 13] = [0; 13];

/// What is done with a text over and over.
#[derive(Clone, Copy)]
pub enum Call {
    Seal,
    Open,
}

impl Call {
    /// The call with a name.
    pub fn of(name: &str) -> Option<Call> {
        match name {
            "seal" => Some(Call::Seal),
            "open" => Some(Call::Open),
            _ => None,
        }
    }
}

/// A text of this length; byte i is i modulo 251.
pub fn text(alloc: Global, length: usize) -> Result<Vec<u8>, AllocError>
    ensures { IfOk result (λ text. vec_len text ≡ length) }
{
    let mut text = Vec::with_capacity(alloc, length)?;
    for i in 0..length {
        text.push((i % 251) as u8)?;
    }
    Ok(text)
}

/// The tag after sealing `count` times, each time what the one before left.
fn resealed(prepared: &Prepared, text: &mut [u8], count: u32) -> [u8; 16]
    requires ready { IsReady prepared.now }
    requires text { length text.old ≤ LARGEST_PAYLOAD }
{
    let mut tag = [0u8; 16];
    for _ in 0..count {
        seal(prepared, &[0u8; 12], &HEADER, text, &mut tag);
    }
    tag
}

/// The tag of the text, where its ciphertext was copied and opened `count` times.
fn reopened(prepared: &Prepared, text: &mut [u8], work: &mut [u8], count: u32) -> [u8; 16]
    requires ready { IsReady prepared.now }
    requires text { length text.old ≤ LARGEST_PAYLOAD }
    requires work { length work.old ≡ length text.old }
{
    let mut tag = [0u8; 16];
    seal(prepared, &[0u8; 12], &HEADER, text, &mut tag);
    let mut opened = true;
    for _ in 0..count {
        work.copy_from_slice(text);
        opened &= open(prepared, &[0u8; 12], &HEADER, work, &tag);
    }
    if opened { tag } else { [0; 16] }
}

/// The last tag of `count` calls, under a key of 32 zero bytes; zero where an opening was refused. `work` is as long as
/// `text`.
pub fn repeated(call: Call, text: &mut [u8], work: &mut [u8], count: u32) -> [u8; 16]
    requires text { length text.old ≤ LARGEST_PAYLOAD }
    requires work { length work.old ≡ length text.old }
{
    let mut prepared = Prepared::empty();
    prepared.fill(&[0u8; 32]);
    match call {
        Call::Seal => resealed(&prepared, text, count),
        Call::Open => reopened(&prepared, text, work, count),
    }
}

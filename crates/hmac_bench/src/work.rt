//! What is measured. Each turn takes the bytes that the one before gave, so that none can be left out.
ghost use Rattle.std.specs.Prelude.{◌≤◌, length};

use bits_core::Alg;
use drbg_core::Drbg;
use hmac_core::hmac;
use kbkdf_core::derive;

/// A function that is measured.
#[derive(Clone, Copy)]
pub enum Work {
    Hmac,
    Generate,
    Derive,
}

impl Work {
    /// The function with a name.
    pub fn of(name: &str) -> Option<Work> {
        match name {
            "hmac" => Some(Work::Hmac),
            "generate" => Some(Work::Generate),
            "derive" => Some(Work::Derive),
            _ => None,
        }
    }
}

/// HMAC-SHA-256 of the text, each MAC the key of the next, and the first bytes of the last.
pub fn macs(text: &[u8], count: u32) -> [u8; 8] {
    let mut out = [0u8; 64];
    for _ in 0..count {
        let key = out;
        hmac(Alg::Sha256, &key, text, &mut out);
    }
    [
        out[0], out[1], out[2], out[3], out[4], out[5], out[6], out[7],
    ]
}

/// Requests that fill `out`, and the first bytes of the generator's value after them.
pub fn requests(out: &mut [u8], count: u32) -> [u8; 8]
    requires { length out.old ≤ 65536 }
{
    let mut drbg = Drbg::empty();
    drbg.instantiate(&[1; 32], &[2; 16], &[]);
    for _ in 0..count {
        if drbg.counter > 1024 {
            drbg.reseed(&[3; 32], &[]);
        }
        drbg.generate(&[], out);
    }
    let v = drbg.v;
    [v[0], v[1], v[2], v[3], v[4], v[5], v[6], v[7]]
}

/// Keys of 32 bytes, each derived from the one before, and the first bytes of the last.
pub fn derivations(count: u32) -> [u8; 8] {
    let mut key = [0u8; 32];
    for _ in 0..count {
        let mut next = [0u8; 32];
        derive(&key, b"label", b"context", &mut next);
        key = next;
    }
    [
        key[0], key[1], key[2], key[3], key[4], key[5], key[6], key[7],
    ]
}

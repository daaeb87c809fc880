//! What is traced.
ghost use Rattle.std.specs.Prelude.{◌≡◌, ◌≤◌, length, vec_len, IfOk};
ghost use Rattle.bits_core.specs.declared.limits.TheConstants.{LARGEST_PAYLOAD};

use crate::ciphered::{padded, sealed, wrapped};
use crate::hashed::{absorbed, derived, generated, maced};
use std::alloc::{AllocError, Global};

/// A way of GHASH.
#[derive(Clone, Copy)]
pub enum Kernel {
    Shuffles,
    Lanes,
    Table,
    Plain,
}

/// How far what protects a text goes: it is made; it is taken back; it is changed and then refused.
#[derive(Clone, Copy)]
pub enum Turn {
    Make,
    TakeBack,
    Refuse,
}

/// A call, or several of one algorithm.
#[derive(Clone, Copy)]
pub enum Work {
    Ghash(Kernel),
    Gcm(Turn),
    Kw(Turn),
    Kwp(Turn),
    Mac,
    Derive,
    Generate,
}

impl Work {
    /// The work with a name.
    pub fn of(name: &str) -> Option<Work> {
        match name {
            "absorb" => Some(Work::Ghash(Kernel::Shuffles)),
            "lanes" => Some(Work::Ghash(Kernel::Lanes)),
            "table" => Some(Work::Ghash(Kernel::Table)),
            "plain" => Some(Work::Ghash(Kernel::Plain)),
            "seal" => Some(Work::Gcm(Turn::Make)),
            "open" => Some(Work::Gcm(Turn::TakeBack)),
            "refuse" => Some(Work::Gcm(Turn::Refuse)),
            "wrap" => Some(Work::Kw(Turn::Make)),
            "unwrap" => Some(Work::Kw(Turn::TakeBack)),
            "refuse_unwrap" => Some(Work::Kw(Turn::Refuse)),
            "wrap_pad" => Some(Work::Kwp(Turn::Make)),
            "unwrap_pad" => Some(Work::Kwp(Turn::TakeBack)),
            "refuse_unwrap_pad" => Some(Work::Kwp(Turn::Refuse)),
            "mac" => Some(Work::Mac),
            "derive" => Some(Work::Derive),
            "generate" => Some(Work::Generate),
            _ => None,
        }
    }
}

/// So many zeros.
pub fn zeros(alloc: Global, length: usize) -> Result<Vec<u8>, AllocError>
    ensures { IfOk result (λ zeros. vec_len zeros ≡ length) }
{
    vec![in alloc; 0; length]
}

/// What comes of the work: sixteen bytes, and with GCM the text.
pub fn done(work: Work, key: &[u8; 32], text: &mut [u8]) -> [u8; 16]
    requires { length text.old ≤ LARGEST_PAYLOAD }
{
    match work {
        Work::Ghash(kernel) => absorbed(kernel, key, text),
        Work::Gcm(turn) => sealed(turn, key, text),
        Work::Kw(turn) => wrapped(turn, key, text),
        Work::Kwp(turn) => padded(turn, key, text),
        Work::Mac => maced(key, text),
        Work::Derive => derived(key, text),
        Work::Generate => generated(key, text),
    }
}

//! The vector that the words behind a kind's name say.
ghost use Rattle.std.specs.Prelude.{◌≡◌, ◌≤◌, ◌*◌, IfSome};
ghost use Rattle.line_words.specs.Words.{total_length};
ghost use Rattle.vector_suite.specs.Vectors.{bytes_in, hash_of, mac_of, seal_of, open_of, wrap_of, unwrap_of, derive_of, drbg_of, cmac_of, cmac_kdf_of};

use crate::shapes::{next_answer, next_bytes};
use crate::vector::Vector;
use bits_core::Alg;
use cmac_core::Mode;
use line_words::Words;

/// Reads `TEXT OUT`.
pub fn read_hash<'a>(alg: Alg, words: &mut Words<'a>) -> Option<Vector<'a>>
    ensures vector { result ≡ hash_of alg words.old }
    ensures short { IfSome result (λ vector. 2 * bytes_in vector ≤ total_length words.old) }
{
    let text = next_bytes(words)?;
    let out = next_bytes(words)?;
    if !words.is_done() {
        return None;
    }
    Some(Vector::Hash { alg, text, out })
}

/// Reads `KEY TEXT OUT`.
pub fn read_mac<'a>(alg: Alg, words: &mut Words<'a>) -> Option<Vector<'a>>
    ensures vector { result ≡ mac_of alg words.old }
    ensures short { IfSome result (λ vector. 2 * bytes_in vector ≤ total_length words.old) }
{
    let key = next_bytes(words)?;
    let text = next_bytes(words)?;
    let out = next_bytes(words)?;
    if !words.is_done() {
        return None;
    }
    Some(Vector::Mac {
        alg,
        key,
        text,
        out,
    })
}

/// Reads `KEY IV AAD TEXT OUT TAG`.
pub fn read_seal<'a>(words: &mut Words<'a>) -> Option<Vector<'a>>
    ensures vector { result ≡ seal_of words.old }
    ensures short { IfSome result (λ vector. 2 * bytes_in vector ≤ total_length words.old) }
{
    let key = next_bytes(words)?;
    let iv = next_bytes(words)?;
    let aad = next_bytes(words)?;
    let text = next_bytes(words)?;
    let out = next_bytes(words)?;
    let tag = next_bytes(words)?;
    if !words.is_done() {
        return None;
    }
    Some(Vector::Seal {
        key,
        iv,
        aad,
        text,
        out,
        tag,
    })
}

/// Reads `KEY IV AAD TEXT TAG OUT`.
pub fn read_open<'a>(words: &mut Words<'a>) -> Option<Vector<'a>>
    ensures vector { result ≡ open_of words.old }
    ensures short { IfSome result (λ vector. 2 * bytes_in vector ≤ total_length words.old) }
{
    let key = next_bytes(words)?;
    let iv = next_bytes(words)?;
    let aad = next_bytes(words)?;
    let text = next_bytes(words)?;
    let tag = next_bytes(words)?;
    let out = next_answer(words)?;
    if !words.is_done() {
        return None;
    }
    Some(Vector::Open {
        key,
        iv,
        aad,
        text,
        tag,
        out,
    })
}

/// Reads `KEY TEXT OUT`.
pub fn read_wrap<'a>(pad: bool, words: &mut Words<'a>) -> Option<Vector<'a>>
    ensures vector { result ≡ wrap_of pad words.old }
    ensures short { IfSome result (λ vector. 2 * bytes_in vector ≤ total_length words.old) }
{
    let key = next_bytes(words)?;
    let text = next_bytes(words)?;
    let out = next_bytes(words)?;
    if !words.is_done() {
        return None;
    }
    Some(Vector::Wrap {
        pad,
        key,
        text,
        out,
    })
}

/// Reads `KEY TEXT OUT`.
pub fn read_unwrap<'a>(pad: bool, words: &mut Words<'a>) -> Option<Vector<'a>>
    ensures vector { result ≡ unwrap_of pad words.old }
    ensures short { IfSome result (λ vector. 2 * bytes_in vector ≤ total_length words.old) }
{
    let key = next_bytes(words)?;
    let text = next_bytes(words)?;
    let out = next_answer(words)?;
    if !words.is_done() {
        return None;
    }
    Some(Vector::Unwrap {
        pad,
        key,
        text,
        out,
    })
}

/// Reads `KEY LABEL CONTEXT OUT`.
pub fn read_derive<'a>(words: &mut Words<'a>) -> Option<Vector<'a>>
    ensures vector { result ≡ derive_of words.old }
    ensures short { IfSome result (λ vector. 2 * bytes_in vector ≤ total_length words.old) }
{
    let key = next_bytes(words)?;
    let label = next_bytes(words)?;
    let context = next_bytes(words)?;
    let out = next_bytes(words)?;
    if !words.is_done() {
        return None;
    }
    Some(Vector::Derive {
        key,
        label,
        context,
        out,
    })
}

/// Reads `ENTROPY NONCE PERSONAL OUT`.
pub fn read_drbg<'a>(words: &mut Words<'a>) -> Option<Vector<'a>>
    ensures vector { result ≡ drbg_of words.old }
    ensures short { IfSome result (λ vector. 2 * bytes_in vector ≤ total_length words.old) }
{
    let entropy = next_bytes(words)?;
    let nonce = next_bytes(words)?;
    let personal = next_bytes(words)?;
    let out = next_bytes(words)?;
    if !words.is_done() {
        return None;
    }
    Some(Vector::Drbg {
        entropy,
        nonce,
        personal,
        out,
    })
}

/// Reads `KEY TEXT OUT`.
pub fn read_cmac<'a>(words: &mut Words<'a>) -> Option<Vector<'a>>
    ensures vector { result ≡ cmac_of words.old }
    ensures short { IfSome result (λ vector. 2 * bytes_in vector ≤ total_length words.old) }
{
    let key = next_bytes(words)?;
    let text = next_bytes(words)?;
    let out = next_bytes(words)?;
    if !words.is_done() {
        return None;
    }
    Some(Vector::Cmac { key, text, out })
}

/// Reads `KEY LABEL CONTEXT OUT`.
pub fn read_cmac_kdf<'a>(mode: Mode, words: &mut Words<'a>) -> Option<Vector<'a>>
    ensures vector { result ≡ cmac_kdf_of mode words.old }
    ensures short { IfSome result (λ vector. 2 * bytes_in vector ≤ total_length words.old) }
{
    let key = next_bytes(words)?;
    let label = next_bytes(words)?;
    let context = next_bytes(words)?;
    let out = next_bytes(words)?;
    if !words.is_done() {
        return None;
    }
    Some(Vector::CmacKdf {
        mode,
        key,
        label,
        context,
        out,
    })
}

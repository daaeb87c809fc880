//! Vectors by kind: the words of bytes are decoded side by side in `work`, and then the calls are made.
ghost use Rattle.std.specs.Prelude.{◌≡◌, ◌≤◌, ◌+◌, ◌&&◌, bytes_eq, length, IsTrue};
ghost use Rattle.bits_core.specs.Parameters.{is_aes_length};
ghost use Rattle.cmac_core.specs.Cmac.{cmac};
ghost use Rattle.cmac_core.specs.Derivation.{cmac_kdf};
ghost use Rattle.vector_suite.specs.Lengths.{is_within, is_wrappable, is_unwrappable, are_sealable, are_derivable};
ghost use Rattle.vector_suite.specs.Outcomes.{hash_outcome, mac_outcome, seal_outcome, open_outcome, wrap_outcome, unwrap_outcome, derive_outcome, drbg_outcome};
ghost use Rattle.vector_suite.specs.Shapes.{answer_length};
ghost use Rattle.vector_suite.specs.declared.vector.Expected.TheVariants.{Refusal, Bytes};

use crate::answers::{
    is_derived, is_digest, is_generated, is_mac, is_not_opened, is_not_unwrapped, is_opened,
    is_sealed, is_unwrapped, is_wrapped,
};
use crate::derivations::{is_cmac, is_derived_by_cmac};
use crate::vector::Expected;
use bits_core::Alg;
use cmac_core::Mode;
use engine_core::Engine;
use line_words::HexWord;

/// The digest of a text.
pub fn check_hash<E: Engine>(
    engine: &mut E,
    alg: Alg,
    text: &HexWord,
    out: &HexWord,
    work: &mut [u8],
) -> bool
    requires { length text.now + length out.now ≤ length work.old }
    ensures passed { result ≡ (hash_outcome E.calls engine.old alg text.now out.now).passed }
    ensures engine { engine.new ≡ (hash_outcome E.calls engine.old alg text.now out.now).engine }
{
    let (text_bytes, rest) = work.split_at_mut(text.len());
    let (out_bytes, _) = rest.split_at_mut(out.len());
    text.decode(text_bytes);
    out.decode(out_bytes);
    is_digest(engine, alg, text_bytes, out_bytes)
}

/// The MAC of a text.
pub fn check_mac<E: Engine>(
    engine: &mut E,
    alg: Alg,
    key: &HexWord,
    text: &HexWord,
    out: &HexWord,
    work: &mut [u8],
) -> bool
    requires { length key.now + length text.now + length out.now ≤ length work.old }
    ensures passed { result ≡ (mac_outcome E.calls engine.old alg key.now text.now out.now).passed }
    ensures engine { engine.new ≡ (mac_outcome E.calls engine.old alg key.now text.now out.now).engine }
{
    let (key_bytes, rest) = work.split_at_mut(key.len());
    let (text_bytes, rest) = rest.split_at_mut(text.len());
    let (out_bytes, _) = rest.split_at_mut(out.len());
    key.decode(key_bytes);
    text.decode(text_bytes);
    out.decode(out_bytes);
    is_mac(engine, alg, key_bytes, text_bytes, out_bytes)
}

/// The ciphertext and the tag of a text.
pub fn check_seal<E: Engine>(
    engine: &mut E,
    key: &HexWord,
    iv: &HexWord,
    aad: &HexWord,
    text: &HexWord,
    out: &HexWord,
    tag: &HexWord,
    work: &mut [u8],
) -> bool
    requires allowed { IsTrue (are_sealable (length key.now) (length iv.now) (length aad.now) (length text.now) (length tag.now)) }
    requires room { length key.now + length iv.now + length aad.now + length text.now + length out.now + length tag.now ≤ length work.old }
    ensures passed { result ≡ (seal_outcome E.calls engine.old key.now iv.now aad.now text.now out.now tag.now).passed }
    ensures engine { engine.new ≡ (seal_outcome E.calls engine.old key.now iv.now aad.now text.now out.now tag.now).engine }
{
    let (key_bytes, rest) = work.split_at_mut(key.len());
    let (iv_bytes, rest) = rest.split_at_mut(iv.len());
    let (aad_bytes, rest) = rest.split_at_mut(aad.len());
    let (text_bytes, rest) = rest.split_at_mut(text.len());
    let (out_bytes, rest) = rest.split_at_mut(out.len());
    let (tag_bytes, _) = rest.split_at_mut(tag.len());
    key.decode(key_bytes);
    iv.decode(iv_bytes);
    aad.decode(aad_bytes);
    text.decode(text_bytes);
    out.decode(out_bytes);
    tag.decode(tag_bytes);
    is_sealed(
        engine, key_bytes, iv_bytes, aad_bytes, text_bytes, out_bytes, tag_bytes,
    )
}

/// The wrapping of a text.
pub fn check_wrap<E: Engine>(
    engine: &mut E,
    pad: bool,
    key: &HexWord,
    text: &HexWord,
    out: &HexWord,
    work: &mut [u8],
) -> bool
    requires allowed { IsTrue (is_aes_length (length key.now) && is_wrappable pad (length text.now)) }
    requires room { length key.now + length text.now + length out.now ≤ length work.old }
    ensures passed { result ≡ (wrap_outcome E.calls engine.old pad key.now text.now out.now).passed }
    ensures engine { engine.new ≡ (wrap_outcome E.calls engine.old pad key.now text.now out.now).engine }
{
    let (key_bytes, rest) = work.split_at_mut(key.len());
    let (text_bytes, rest) = rest.split_at_mut(text.len());
    let (out_bytes, _) = rest.split_at_mut(out.len());
    key.decode(key_bytes);
    text.decode(text_bytes);
    out.decode(out_bytes);
    is_wrapped(engine, pad, key_bytes, text_bytes, out_bytes)
}

/// What is derived from a key.
pub fn check_derive<E: Engine>(
    engine: &mut E,
    key: &HexWord,
    label: &HexWord,
    context: &HexWord,
    out: &HexWord,
    work: &mut [u8],
) -> bool
    requires allowed { IsTrue (are_derivable (length label.now) (length context.now) (length out.now)) }
    requires room { length key.now + length label.now + length context.now + length out.now + length out.now ≤ length work.old }
    ensures passed { result ≡ (derive_outcome E.calls engine.old key.now label.now context.now out.now).passed }
    ensures engine { engine.new ≡ (derive_outcome E.calls engine.old key.now label.now context.now out.now).engine }
{
    let (key_bytes, rest) = work.split_at_mut(key.len());
    let (label_bytes, rest) = rest.split_at_mut(label.len());
    let (context_bytes, rest) = rest.split_at_mut(context.len());
    let (out_bytes, rest) = rest.split_at_mut(out.len());
    let (made, _) = rest.split_at_mut(out.len());
    key.decode(key_bytes);
    label.decode(label_bytes);
    context.decode(context_bytes);
    out.decode(out_bytes);
    is_derived(
        engine,
        key_bytes,
        label_bytes,
        context_bytes,
        out_bytes,
        made,
    )
}

/// What a generator gives at its first request.
pub fn check_drbg<E: Engine>(
    engine: &mut E,
    entropy: &HexWord,
    nonce: &HexWord,
    personal: &HexWord,
    out: &HexWord,
    work: &mut [u8],
) -> bool
    requires allowed { IsTrue (is_within 1 65536 (length out.now)) }
    requires room { length entropy.now + length nonce.now + length personal.now + length out.now + length out.now ≤ length work.old }
    ensures passed { result ≡ (drbg_outcome E.calls engine.old entropy.now nonce.now personal.now out.now).passed }
    ensures engine { engine.new ≡ (drbg_outcome E.calls engine.old entropy.now nonce.now personal.now out.now).engine }
{
    let (entropy_bytes, rest) = work.split_at_mut(entropy.len());
    let (nonce_bytes, rest) = rest.split_at_mut(nonce.len());
    let (personal_bytes, rest) = rest.split_at_mut(personal.len());
    let (out_bytes, rest) = rest.split_at_mut(out.len());
    let (made, _) = rest.split_at_mut(out.len());
    entropy.decode(entropy_bytes);
    nonce.decode(nonce_bytes);
    personal.decode(personal_bytes);
    out.decode(out_bytes);
    is_generated(
        engine,
        entropy_bytes,
        nonce_bytes,
        personal_bytes,
        out_bytes,
        made,
    )
}

// The plaintext of a ciphertext.
fn check_opened<E: Engine>(
    engine: &mut E,
    key: &HexWord,
    iv: &HexWord,
    aad: &HexWord,
    text: &HexWord,
    tag: &HexWord,
    out: &HexWord,
    work: &mut [u8],
) -> bool
    requires allowed { IsTrue (are_sealable (length key.now) (length iv.now) (length aad.now) (length text.now) (length tag.now)) }
    requires room { length key.now + length iv.now + length aad.now + length text.now + length tag.now + length out.now ≤ length work.old }
    ensures passed { result ≡ (open_outcome E.calls engine.old key.now iv.now aad.now text.now tag.now (Bytes out.now)).passed }
    ensures engine { engine.new ≡ (open_outcome E.calls engine.old key.now iv.now aad.now text.now tag.now (Bytes out.now)).engine }
{
    let (key_bytes, rest) = work.split_at_mut(key.len());
    let (iv_bytes, rest) = rest.split_at_mut(iv.len());
    let (aad_bytes, rest) = rest.split_at_mut(aad.len());
    let (text_bytes, rest) = rest.split_at_mut(text.len());
    let (tag_bytes, rest) = rest.split_at_mut(tag.len());
    let (out_bytes, _) = rest.split_at_mut(out.len());
    key.decode(key_bytes);
    iv.decode(iv_bytes);
    aad.decode(aad_bytes);
    text.decode(text_bytes);
    tag.decode(tag_bytes);
    out.decode(out_bytes);
    is_opened(
        engine, key_bytes, iv_bytes, aad_bytes, text_bytes, tag_bytes, out_bytes,
    )
}

// The refusal of a tag.
fn check_not_opened<E: Engine>(
    engine: &mut E,
    key: &HexWord,
    iv: &HexWord,
    aad: &HexWord,
    text: &HexWord,
    tag: &HexWord,
    work: &mut [u8],
) -> bool
    requires allowed { IsTrue (are_sealable (length key.now) (length iv.now) (length aad.now) (length text.now) (length tag.now)) }
    requires room { length key.now + length iv.now + length aad.now + length text.now + length tag.now ≤ length work.old }
    ensures passed { result ≡ (open_outcome E.calls engine.old key.now iv.now aad.now text.now tag.now Refusal).passed }
    ensures engine { engine.new ≡ (open_outcome E.calls engine.old key.now iv.now aad.now text.now tag.now Refusal).engine }
{
    let (key_bytes, rest) = work.split_at_mut(key.len());
    let (iv_bytes, rest) = rest.split_at_mut(iv.len());
    let (aad_bytes, rest) = rest.split_at_mut(aad.len());
    let (text_bytes, rest) = rest.split_at_mut(text.len());
    let (tag_bytes, _) = rest.split_at_mut(tag.len());
    key.decode(key_bytes);
    iv.decode(iv_bytes);
    aad.decode(aad_bytes);
    text.decode(text_bytes);
    tag.decode(tag_bytes);
    is_not_opened(
        engine, key_bytes, iv_bytes, aad_bytes, text_bytes, tag_bytes,
    )
}

/// The plaintext of a ciphertext, or the refusal of its tag.
pub fn check_open<E: Engine>(
    engine: &mut E,
    key: &HexWord,
    iv: &HexWord,
    aad: &HexWord,
    text: &HexWord,
    tag: &HexWord,
    out: &Expected,
    work: &mut [u8],
) -> bool
    requires allowed { IsTrue (are_sealable (length key.now) (length iv.now) (length aad.now) (length text.now) (length tag.now)) }
    requires room { length key.now + length iv.now + length aad.now + length text.now + length tag.now + answer_length out.now ≤ length work.old }
    ensures passed { result ≡ (open_outcome E.calls engine.old key.now iv.now aad.now text.now tag.now out.now).passed }
    ensures engine { engine.new ≡ (open_outcome E.calls engine.old key.now iv.now aad.now text.now tag.now out.now).engine }
{
    match out {
        Expected::Bytes(bytes) => check_opened(engine, key, iv, aad, text, tag, bytes, work),
        Expected::Refusal => check_not_opened(engine, key, iv, aad, text, tag, work),
    }
}

// The plaintext of a wrapping.
fn check_unwrapped<E: Engine>(
    engine: &mut E,
    pad: bool,
    key: &HexWord,
    text: &HexWord,
    out: &HexWord,
    work: &mut [u8],
) -> bool
    requires allowed { IsTrue (is_aes_length (length key.now) && is_unwrappable pad (length text.now)) }
    requires room { length key.now + length text.now + length out.now ≤ length work.old }
    ensures passed { result ≡ (unwrap_outcome E.calls engine.old pad key.now text.now (Bytes out.now)).passed }
    ensures engine { engine.new ≡ (unwrap_outcome E.calls engine.old pad key.now text.now (Bytes out.now)).engine }
{
    let (key_bytes, rest) = work.split_at_mut(key.len());
    let (text_bytes, rest) = rest.split_at_mut(text.len());
    let (out_bytes, _) = rest.split_at_mut(out.len());
    key.decode(key_bytes);
    text.decode(text_bytes);
    out.decode(out_bytes);
    is_unwrapped(engine, pad, key_bytes, text_bytes, out_bytes)
}

// The refusal of a wrapping.
fn check_not_unwrapped<E: Engine>(
    engine: &mut E,
    pad: bool,
    key: &HexWord,
    text: &HexWord,
    work: &mut [u8],
) -> bool
    requires allowed { IsTrue (is_aes_length (length key.now) && is_unwrappable pad (length text.now)) }
    requires room { length key.now + length text.now ≤ length work.old }
    ensures passed { result ≡ (unwrap_outcome E.calls engine.old pad key.now text.now Refusal).passed }
    ensures engine { engine.new ≡ (unwrap_outcome E.calls engine.old pad key.now text.now Refusal).engine }
{
    let (key_bytes, rest) = work.split_at_mut(key.len());
    let (text_bytes, _) = rest.split_at_mut(text.len());
    key.decode(key_bytes);
    text.decode(text_bytes);
    is_not_unwrapped(engine, pad, key_bytes, text_bytes)
}

/// The plaintext of a wrapping, or its refusal.
pub fn check_unwrap<E: Engine>(
    engine: &mut E,
    pad: bool,
    key: &HexWord,
    text: &HexWord,
    out: &Expected,
    work: &mut [u8],
) -> bool
    requires allowed { IsTrue (is_aes_length (length key.now) && is_unwrappable pad (length text.now)) }
    requires room { length key.now + length text.now + answer_length out.now ≤ length work.old }
    ensures passed { result ≡ (unwrap_outcome E.calls engine.old pad key.now text.now out.now).passed }
    ensures engine { engine.new ≡ (unwrap_outcome E.calls engine.old pad key.now text.now out.now).engine }
{
    match out {
        Expected::Bytes(bytes) => check_unwrapped(engine, pad, key, text, bytes, work),
        Expected::Refusal => check_not_unwrapped(engine, pad, key, text, work),
    }
}

/// The CMAC of a text.
pub fn check_cmac(key: &HexWord, text: &HexWord, out: &HexWord, work: &mut [u8]) -> bool
    requires allowed { IsTrue (is_aes_length (length key.now)) }
    requires room { length key.now + length text.now + length out.now ≤ length work.old }
    ensures { result ≡ bytes_eq (cmac key.now text.now) out.now }
{
    let (key_bytes, rest) = work.split_at_mut(key.len());
    let (text_bytes, rest) = rest.split_at_mut(text.len());
    let (out_bytes, _) = rest.split_at_mut(out.len());
    key.decode(key_bytes);
    text.decode(text_bytes);
    out.decode(out_bytes);
    is_cmac(key_bytes, text_bytes, out_bytes)
}

/// What is derived from a key by CMAC.
pub fn check_cmac_kdf(
    mode: Mode,
    key: &HexWord,
    label: &HexWord,
    context: &HexWord,
    out: &HexWord,
    work: &mut [u8],
) -> bool
    requires allowed { IsTrue (is_aes_length (length key.now) && are_derivable (length label.now) (length context.now) (length out.now)) }
    requires room { length key.now + length label.now + length context.now + length out.now + length out.now ≤ length work.old }
    ensures { result ≡ bytes_eq (cmac_kdf mode key.now label.now context.now (length out.now)) out.now }
{
    let (key_bytes, rest) = work.split_at_mut(key.len());
    let (label_bytes, rest) = rest.split_at_mut(label.len());
    let (context_bytes, rest) = rest.split_at_mut(context.len());
    let (out_bytes, rest) = rest.split_at_mut(out.len());
    let (made, _) = rest.split_at_mut(out.len());
    key.decode(key_bytes);
    label.decode(label_bytes);
    context.decode(context_bytes);
    out.decode(out_bytes);
    is_derived_by_cmac(mode, key_bytes, label_bytes, context_bytes, out_bytes, made)
}

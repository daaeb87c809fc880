//! The calls of a vector, each made once, and what they answer beside what is expected.
ghost use Rattle.std.specs.Prelude.{◌≡◌, ◌≤◌, ◌&&◌, bytes_eq, length, not, true, IsTrue};
ghost use Rattle.bits_core.specs.ByteList.{zero_padded, zeros};
ghost use Rattle.bits_core.specs.Parameters.{is_aes_length};
ghost use Rattle.vector_suite.specs.Lengths.{is_within, is_wrappable, is_unwrappable, are_sealable, are_derivable};
ghost use Rattle.vector_suite.specs.Outcomes.{hash_outcome, mac_outcome, seal_outcome, open_outcome, wrap_outcome, unwrap_outcome, derive_outcome, drbg_outcome};
ghost use Rattle.vector_suite.specs.declared.vector.Expected.TheVariants.{Refusal, Bytes};

use bits_core::{Alg, same, wipe};
use drbg_core::Drbg;
use engine_core::Engine;
use gcm_mode::Prepared;

/// Whether two lists of bytes are equal, in length and in each byte.
pub fn equal(made: &[u8], known: &[u8]) -> bool
    ensures { result ≡ bytes_eq made.now known.now }
{
    same(made, known)
}

// The bytes at the front of a buffer to wrap or to unwrap in, with zeros behind them.
fn buffer_of(bytes: &[u8]) -> [u8; 80]
    requires { length bytes.now ≤ 80 }
    ensures { result ≡ zero_padded 80 bytes.now }
{
    let mut buf = [0; 80];
    buf[..bytes.len()].copy_from_slice(bytes);
    buf
}

/// The digest of a text.
pub fn is_digest<E: Engine>(engine: &mut E, alg: Alg, text: &[u8], out: &[u8]) -> bool
    ensures passed { result ≡ (hash_outcome E.calls engine.old alg text.now out.now).passed }
    ensures engine { engine.new ≡ (hash_outcome E.calls engine.old alg text.now out.now).engine }
{
    let mut digest = [0; 64];
    engine.hash(alg, text, &mut digest);
    equal(&digest[..alg.size()], out)
}

/// The MAC of a text.
pub fn is_mac<E: Engine>(engine: &mut E, alg: Alg, key: &[u8], text: &[u8], out: &[u8]) -> bool
    ensures passed { result ≡ (mac_outcome E.calls engine.old alg key.now text.now out.now).passed }
    ensures engine { engine.new ≡ (mac_outcome E.calls engine.old alg key.now text.now out.now).engine }
{
    let mut mac = [0; 64];
    engine.mac(alg, key, text, &mut mac);
    equal(&mac[..alg.size()], out)
}

/// The ciphertext of a text, which is sealed in place, and the front of its tag.
pub fn is_sealed<E: Engine>(
    engine: &mut E,
    key: &[u8],
    iv: &[u8],
    aad: &[u8],
    text: &mut [u8],
    out: &[u8],
    tag: &[u8],
) -> bool
    requires { IsTrue (are_sealable (length key.now) (length iv.now) (length aad.now) (length text.old) (length tag.now)) }
    ensures passed { result ≡ (seal_outcome E.calls engine.old key.now iv.now aad.now text.old out.now tag.now).passed }
    ensures engine { engine.new ≡ (seal_outcome E.calls engine.old key.now iv.now aad.now text.old out.now tag.now).engine }
{
    let mut prepared = Prepared::empty();
    prepared.fill(key);
    let mut made = [0; 16];
    engine.seal(&prepared, iv, aad, text, &mut made);
    prepared.wipe();
    equal(text, out) && equal(&made[..tag.len()], tag)
}

// Opens a ciphertext in place, and says whether the tag is its own.
fn opens<E: Engine>(
    engine: &mut E,
    key: &[u8],
    iv: &[u8],
    aad: &[u8],
    text: &mut [u8],
    tag: &[u8],
) -> bool
    requires { IsTrue (are_sealable (length key.now) (length iv.now) (length aad.now) (length text.old) (length tag.now)) }
    ensures answer { result ≡ (E.calls.open engine.old key.now iv.now aad.now text.old tag.now).authentic }
    ensures text { text.new ≡ (E.calls.open engine.old key.now iv.now aad.now text.old tag.now).text }
    ensures engine { engine.new ≡ E.calls.open_after engine.old key.now iv.now aad.now text.old tag.now }
{
    let mut prepared = Prepared::empty();
    prepared.fill(key);
    let opened = engine.open(&prepared, iv, aad, text, tag);
    prepared.wipe();
    opened
}

/// The plaintext of a ciphertext, which is opened in place.
pub fn is_opened<E: Engine>(
    engine: &mut E,
    key: &[u8],
    iv: &[u8],
    aad: &[u8],
    text: &mut [u8],
    tag: &[u8],
    out: &[u8],
) -> bool
    requires { IsTrue (are_sealable (length key.now) (length iv.now) (length aad.now) (length text.old) (length tag.now)) }
    ensures passed { result ≡ (open_outcome E.calls engine.old key.now iv.now aad.now text.old tag.now (Bytes out.now)).passed }
    ensures engine { engine.new ≡ (open_outcome E.calls engine.old key.now iv.now aad.now text.old tag.now (Bytes out.now)).engine }
{
    opens(engine, key, iv, aad, text, tag) && equal(text, out)
}

/// A ciphertext whose tag is refused.
pub fn is_not_opened<E: Engine>(
    engine: &mut E,
    key: &[u8],
    iv: &[u8],
    aad: &[u8],
    text: &mut [u8],
    tag: &[u8],
) -> bool
    requires { IsTrue (are_sealable (length key.now) (length iv.now) (length aad.now) (length text.old) (length tag.now)) }
    ensures passed { result ≡ (open_outcome E.calls engine.old key.now iv.now aad.now text.old tag.now Refusal).passed }
    ensures engine { engine.new ≡ (open_outcome E.calls engine.old key.now iv.now aad.now text.old tag.now Refusal).engine }
{
    !opens(engine, key, iv, aad, text, tag)
}

/// The wrapping of a text, with padding or without.
#[tactic(auto, using(crate::proofs::Buffers::front, crate::proofs::Buffers::rest, crate::proofs::Buffers::text_fits))]
pub fn is_wrapped<E: Engine>(engine: &mut E, pad: bool, key: &[u8], text: &[u8], out: &[u8]) -> bool
    requires { IsTrue (is_aes_length (length key.now) && is_wrappable pad (length text.now)) }
    ensures passed { result ≡ (wrap_outcome E.calls engine.old pad key.now text.now out.now).passed }
    ensures engine { engine.new ≡ (wrap_outcome E.calls engine.old pad key.now text.now out.now).engine }
{
    let mut prepared = Prepared::empty();
    prepared.fill(key);
    let mut buf = buffer_of(text);
    let size = engine.wrap(pad, &prepared, &mut buf, text.len());
    prepared.wipe();
    equal(&buf[..size], out)
}

/// The plaintext of a wrapping, with padding or without.
#[tactic(auto, using(crate::proofs::Buffers::front, crate::proofs::Buffers::rest, crate::proofs::Buffers::wrapped_fits))]
pub fn is_unwrapped<E: Engine>(
    engine: &mut E,
    pad: bool,
    key: &[u8],
    wrapped: &[u8],
    out: &[u8],
) -> bool
    requires { IsTrue (is_aes_length (length key.now) && is_unwrappable pad (length wrapped.now)) }
    ensures passed { result ≡ (unwrap_outcome E.calls engine.old pad key.now wrapped.now (Bytes out.now)).passed }
    ensures engine { engine.new ≡ (unwrap_outcome E.calls engine.old pad key.now wrapped.now (Bytes out.now)).engine }
{
    let mut prepared = Prepared::empty();
    prepared.fill(key);
    let mut buf = buffer_of(wrapped);
    let unwrapped = engine.unwrap(pad, &prepared, &mut buf, wrapped.len());
    prepared.wipe();
    match unwrapped {
        Some(size) => equal(&buf[..size], out),
        None => false,
    }
}

/// A wrapping that is refused, with padding or without.
#[tactic(auto, using(crate::proofs::Buffers::front, crate::proofs::Buffers::rest, crate::proofs::Buffers::wrapped_fits))]
pub fn is_not_unwrapped<E: Engine>(engine: &mut E, pad: bool, key: &[u8], wrapped: &[u8]) -> bool
    requires { IsTrue (is_aes_length (length key.now) && is_unwrappable pad (length wrapped.now)) }
    ensures passed { result ≡ (unwrap_outcome E.calls engine.old pad key.now wrapped.now Refusal).passed }
    ensures engine { engine.new ≡ (unwrap_outcome E.calls engine.old pad key.now wrapped.now Refusal).engine }
{
    let mut prepared = Prepared::empty();
    prepared.fill(key);
    let mut buf = buffer_of(wrapped);
    let unwrapped = engine.unwrap(pad, &prepared, &mut buf, wrapped.len());
    prepared.wipe();
    match unwrapped {
        Some(_) => false,
        None => true,
    }
}

/// What is derived from a key, so many bytes as `out` has, in `made`.
pub fn is_derived<E: Engine>(
    engine: &mut E,
    key: &[u8],
    label: &[u8],
    context: &[u8],
    out: &[u8],
    made: &mut [u8],
) -> bool
    requires allowed { IsTrue (are_derivable (length label.now) (length context.now) (length out.now)) }
    requires made { length made.old ≡ length out.now }
    ensures passed { result ≡ (derive_outcome E.calls engine.old key.now label.now context.now out.now).passed }
    ensures engine { engine.new ≡ (derive_outcome E.calls engine.old key.now label.now context.now out.now).engine }
{
    wipe(made);
    engine.derive(key, label, context, made);
    equal(made, out)
}

/// What a generator gives at its first request, so many bytes as `out` has, in `made`.
pub fn is_generated<E: Engine>(
    engine: &mut E,
    entropy: &[u8],
    nonce: &[u8],
    personal: &[u8],
    out: &[u8],
    made: &mut [u8],
) -> bool
    requires allowed { IsTrue (is_within 1 65536 (length out.now)) }
    requires made { length made.old ≡ length out.now }
    ensures passed { result ≡ (drbg_outcome E.calls engine.old entropy.now nonce.now personal.now out.now).passed }
    ensures engine { engine.new ≡ (drbg_outcome E.calls engine.old entropy.now nonce.now personal.now out.now).engine }
{
    wipe(made);
    let mut drbg = Drbg::empty();
    engine.drbg_instantiate(entropy, nonce, personal, &mut drbg);
    engine.drbg_generate(&[], &mut drbg, made);
    drbg.wipe();
    equal(made, out)
}

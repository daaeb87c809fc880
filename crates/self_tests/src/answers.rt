//! The calls of the tests, each with what is known of its answer.
ghost use Rattle.std.specs.Prelude.{◌≡◌, ◌≤◌, bytes_eq, length, IsTrue};
ghost use Rattle.bits_core.specs.ByteList.{zero_padded, zeros};
ghost use Rattle.bits_core.specs.Parameters.{is_aes_length};
ghost use Rattle.engine_core.specs.Inputs.{IsUnwrappable, IsWrappable};
ghost use Rattle.gcm_mode.specs.Gcm.{IsIv, IsSealable, IsTagLength};
ghost use Rattle.self_tests.specs.KnownAnswers.{derive_outcome, digest_outcome, generator_outcome, mac_outcome, open_outcome, seal_outcome, unwrap_outcome, wrap_outcome};

use bits_core::{Alg, same, wipe};
use drbg_core::Drbg;
use engine_core::Engine;
use gcm_mode::Prepared;

/// Whether two lists of bytes are equal.
pub fn equal(made: &[u8], known: &[u8]) -> bool
    ensures { result ≡ bytes_eq made.now known.now }
{
    same(made, known)
}

// The bytes at the front of a buffer to wrap or to unwrap in, with zeros behind them.
fn buffer_of(bytes: &[u8]) -> [u8; 80]
    requires { length bytes.now ≤ 80 }
    ensures { result ≡ zero_padded 80 bytes.now }
{
    let mut buf = [0; 80];
    buf[..bytes.len()].copy_from_slice(bytes);
    buf
}

/// The digest of a text.
pub fn is_digest<E: Engine>(engine: &mut E, alg: Alg, text: &[u8], digest: &[u8]) -> bool
    ensures right { result ≡ (digest_outcome E.calls engine.old alg text.now digest.now).right }
    ensures engine { engine.new ≡ (digest_outcome E.calls engine.old alg text.now digest.now).engine }
{
    let mut out = [0; 64];
    engine.hash(alg, text, &mut out);
    equal(&out[..alg.size()], digest)
}

/// The MAC of a text.
pub fn is_mac<E: Engine>(engine: &mut E, alg: Alg, key: &[u8], text: &[u8], mac: &[u8]) -> bool
    ensures right { result ≡ (mac_outcome E.calls engine.old alg key.now text.now mac.now).right }
    ensures engine { engine.new ≡ (mac_outcome E.calls engine.old alg key.now text.now mac.now).engine }
{
    let mut out = [0; 64];
    engine.mac(alg, key, text, &mut out);
    equal(&out[..alg.size()], mac)
}

/// The ciphertext and the tag of a text, which is sealed in the first bytes of `work`.
#[tactic(auto, using(crate::proofs::WorkBytes::whole))]
pub fn is_sealed<E: Engine>(
    engine: &mut E,
    key: &[u8],
    iv: &[u8],
    text: &[u8],
    ciphertext: &[u8],
    tag: &[u8],
    work: &mut [u8],
) -> bool
    requires key { IsTrue (is_aes_length (length key.now)) }
    requires iv { IsIv iv.now }
    requires text { IsSealable text.now }
    requires work { length text.now ≤ length work.old }
    requires zero { work.old ≡ zeros (length work.old) }
    ensures right { result ≡ (seal_outcome E.calls engine.old key.now iv.now text.now ciphertext.now tag.now).right }
    ensures engine { engine.new ≡ (seal_outcome E.calls engine.old key.now iv.now text.now ciphertext.now tag.now).engine }
    ensures wiped { work.new ≡ zeros (length work.old) }
{
    let mut prepared = Prepared::empty();
    prepared.fill(key);
    let out = &mut work[..text.len()];
    out.copy_from_slice(text);
    let mut made = [0; 16];
    engine.seal(&prepared, iv, &[], out, &mut made);
    prepared.wipe();
    let right = equal(out, ciphertext) && equal(&made, tag);
    wipe(out);
    right
}

/// The text of a ciphertext under its tag, and a refusal under another tag. Both are opened in the first bytes of `work`.
#[tactic(auto, using(crate::proofs::WorkBytes::whole))]
pub fn is_opened<E: Engine>(
    engine: &mut E,
    key: &[u8],
    iv: &[u8],
    ciphertext: &[u8],
    tag: &[u8],
    text: &[u8],
    other_tag: &[u8],
    work: &mut [u8],
) -> bool
    requires key { IsTrue (is_aes_length (length key.now)) }
    requires iv { IsIv iv.now }
    requires ciphertext { IsSealable ciphertext.now }
    requires tag { IsTagLength (length tag.now) }
    requires other_tag { IsTagLength (length other_tag.now) }
    requires work { length ciphertext.now ≤ length work.old }
    requires zero { work.old ≡ zeros (length work.old) }
    ensures right { result ≡ (open_outcome E.calls engine.old key.now iv.now ciphertext.now tag.now text.now other_tag.now).right }
    ensures engine { engine.new ≡ (open_outcome E.calls engine.old key.now iv.now ciphertext.now tag.now text.now other_tag.now).engine }
    ensures wiped { work.new ≡ zeros (length work.old) }
{
    let mut prepared = Prepared::empty();
    prepared.fill(key);
    let out = &mut work[..ciphertext.len()];
    out.copy_from_slice(ciphertext);
    let opened = engine.open(&prepared, iv, &[], out, tag);
    let right = opened && equal(out, text);
    out.copy_from_slice(ciphertext);
    let forged = engine.open(&prepared, iv, &[], out, other_tag);
    prepared.wipe();
    wipe(out);
    right && !forged
}

/// The wrapping of a text, with padding or without.
#[tactic(auto, using(crate::proofs::Buffers::front, crate::proofs::Buffers::rest, crate::proofs::Buffers::text_fits))]
pub fn is_wrapped<E: Engine>(
    engine: &mut E,
    pad: bool,
    key: &[u8],
    text: &[u8],
    wrapping: &[u8],
) -> bool
    requires key { IsTrue (is_aes_length (length key.now)) }
    requires text { IsWrappable pad (length text.now) }
    ensures right { result ≡ (wrap_outcome E.calls engine.old pad key.now text.now wrapping.now).right }
    ensures engine { engine.new ≡ (wrap_outcome E.calls engine.old pad key.now text.now wrapping.now).engine }
{
    let mut prepared = Prepared::empty();
    prepared.fill(key);
    let mut buf = buffer_of(text);
    let size = engine.wrap(pad, &prepared, &mut buf, text.len());
    prepared.wipe();
    equal(&buf[..size], wrapping)
}

/// The text of a wrapping, with padding or without.
#[tactic(auto, using(crate::proofs::Buffers::front, crate::proofs::Buffers::rest, crate::proofs::Buffers::wrapped_fits))]
pub fn is_unwrapped<E: Engine>(
    engine: &mut E,
    pad: bool,
    key: &[u8],
    wrapping: &[u8],
    text: &[u8],
) -> bool
    requires key { IsTrue (is_aes_length (length key.now)) }
    requires wrapping { IsUnwrappable pad (length wrapping.now) }
    ensures right { result ≡ (unwrap_outcome E.calls engine.old pad key.now wrapping.now text.now).right }
    ensures engine { engine.new ≡ (unwrap_outcome E.calls engine.old pad key.now wrapping.now text.now).engine }
{
    let mut prepared = Prepared::empty();
    prepared.fill(key);
    let mut buf = buffer_of(wrapping);
    let unwrapped = engine.unwrap(pad, &prepared, &mut buf, wrapping.len());
    prepared.wipe();
    match unwrapped {
        Some(size) => equal(&buf[..size], text),
        None => false,
    }
}

/// What is derived from a key, in the first bytes of `work`, as many as are known.
#[tactic(auto, using(crate::proofs::WorkBytes::front, crate::proofs::WorkBytes::whole))]
pub fn is_derived<E: Engine>(
    engine: &mut E,
    key: &[u8],
    label: &[u8],
    context: &[u8],
    derived: &[u8],
    work: &mut [u8],
) -> bool
    requires some { 1 ≤ length derived.now }
    requires most { length derived.now ≤ 65536 }
    requires work { length derived.now ≤ length work.old }
    requires zero { work.old ≡ zeros (length work.old) }
    ensures right { result ≡ (derive_outcome E.calls engine.old key.now label.now context.now derived.now).right }
    ensures engine { engine.new ≡ (derive_outcome E.calls engine.old key.now label.now context.now derived.now).engine }
    ensures wiped { work.new ≡ zeros (length work.old) }
{
    let out = &mut work[..derived.len()];
    engine.derive(key, label, context, out);
    let right = equal(out, derived);
    wipe(out);
    right
}

/// What a generator gives that was instantiated and then seeded anew, in the first bytes of `work`, as many as are known.
#[tactic(auto, using(crate::proofs::WorkBytes::front, crate::proofs::WorkBytes::whole))]
pub fn is_generated<E: Engine>(
    engine: &mut E,
    entropy: &[u8],
    nonce: &[u8],
    fresh: &[u8],
    generated: &[u8],
    work: &mut [u8],
) -> bool
    requires most { length generated.now ≤ 65536 }
    requires work { length generated.now ≤ length work.old }
    requires zero { work.old ≡ zeros (length work.old) }
    ensures right { result ≡ (generator_outcome E.calls engine.old entropy.now nonce.now fresh.now generated.now).right }
    ensures engine { engine.new ≡ (generator_outcome E.calls engine.old entropy.now nonce.now fresh.now generated.now).engine }
    ensures wiped { work.new ≡ zeros (length work.old) }
{
    let out = &mut work[..generated.len()];
    let mut drbg = Drbg::empty();
    engine.drbg_instantiate(entropy, nonce, &[], &mut drbg);
    engine.drbg_reseed(fresh, &[], &mut drbg);
    engine.drbg_generate(&[], &mut drbg, out);
    drbg.wipe();
    let right = equal(out, generated);
    wipe(out);
    right
}

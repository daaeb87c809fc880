//! The tests.
ghost use Rattle.std.specs.Prelude.{◌≡◌, ◌≤◌, length};
ghost use Rattle.bits_core.specs.ByteList.{zeros};
ghost use Rattle.self_tests.specs.KnownAnswers.{answers_right, engine_after};

use crate::Test;
use crate::answers::{
    is_derived, is_digest, is_generated, is_mac, is_opened, is_sealed, is_unwrapped, is_wrapped,
};
use crate::table::{
    DERIVATION_CONTEXT, DERIVATION_KEY, DERIVATION_LABEL, DERIVED, DIGEST_256, DIGEST_384,
    DIGEST_512, ENTROPY, GCM_CIPHERTEXT, GCM_IV, GCM_KEY, GCM_OTHER_TAG, GCM_TAG, GCM_TEXT,
    GENERATED, HASH_TEXT, MAC_256, MAC_384, MAC_512, MAC_KEY, MAC_TEXT, NONCE, PADDED_WRAPPED_TEXT,
    PADDED_WRAPPING, PADDED_WRAPPING_KEY, RESEED_ENTROPY, WRAPPED_TEXT, WRAPPING, WRAPPING_KEY,
};
use bits_core::Alg;
use engine_core::Engine;

/// Makes the calls of a known-answer test (ISO/IEC 19790:2012, 7.10.3.2), all of them whatever the earlier ones answered, and says
/// whether each answer is the table's. The bytes of each answer are compared, and not what stands behind them.
///
/// `work` has at least 256 bytes. It is zero before and after.
pub fn known_answer<E: Engine>(engine: &mut E, test: Test, work: &mut [u8]) -> bool
    requires room { 256 ≤ length work.old }
    requires zero { work.old ≡ zeros (length work.old) }
    ensures right { result ≡ answers_right E.calls engine.old test }
    ensures engine { engine.new ≡ engine_after E.calls engine.old test }
    ensures wiped { work.new ≡ zeros (length work.old) }
{
    match test {
        Test::Sha256 => is_digest(engine, Alg::Sha256, &HASH_TEXT, &DIGEST_256),
        Test::Sha384 => is_digest(engine, Alg::Sha384, &HASH_TEXT, &DIGEST_384),
        Test::Sha512 => is_digest(engine, Alg::Sha512, &HASH_TEXT, &DIGEST_512),
        Test::HmacSha256 => is_mac(engine, Alg::Sha256, &MAC_KEY, &MAC_TEXT, &MAC_256),
        Test::HmacSha384 => is_mac(engine, Alg::Sha384, &MAC_KEY, &MAC_TEXT, &MAC_384),
        Test::HmacSha512 => is_mac(engine, Alg::Sha512, &MAC_KEY, &MAC_TEXT, &MAC_512),
        Test::Seal => is_sealed(
            engine,
            &GCM_KEY,
            &GCM_IV,
            &GCM_TEXT,
            &GCM_CIPHERTEXT,
            &GCM_TAG,
            work,
        ),
        Test::Open => is_opened(
            engine,
            &GCM_KEY,
            &GCM_IV,
            &GCM_CIPHERTEXT,
            &GCM_TAG,
            &GCM_TEXT,
            &GCM_OTHER_TAG,
            work,
        ),
        Test::Wrap => is_wrapped(engine, false, &WRAPPING_KEY, &WRAPPED_TEXT, &WRAPPING),
        Test::Unwrap => is_unwrapped(engine, false, &WRAPPING_KEY, &WRAPPING, &WRAPPED_TEXT),
        Test::WrapPad => is_wrapped(
            engine,
            true,
            &PADDED_WRAPPING_KEY,
            &PADDED_WRAPPED_TEXT,
            &PADDED_WRAPPING,
        ),
        Test::UnwrapPad => is_unwrapped(
            engine,
            true,
            &PADDED_WRAPPING_KEY,
            &PADDED_WRAPPING,
            &PADDED_WRAPPED_TEXT,
        ),
        Test::Derive => is_derived(
            engine,
            &DERIVATION_KEY,
            &DERIVATION_LABEL,
            &DERIVATION_CONTEXT,
            &DERIVED,
            work,
        ),
        Test::Generator => is_generated(
            engine,
            &ENTROPY,
            &NONCE,
            &RESEED_ENTROPY,
            &GENERATED,
            work,
        ),
    }
}

//! What a vector finds.
ghost use Rattle.std.specs.Prelude.{◌≡◌, ◌≤◌, ◌*◌, length, true};
ghost use Rattle.vector_suite.specs.Lengths.{has_allowed_lengths};
ghost use Rattle.vector_suite.specs.Outcomes.{outcome};
ghost use Rattle.vector_suite.specs.Vectors.{bytes_in};

use crate::decoding::{
    check_cmac, check_cmac_kdf, check_derive, check_drbg, check_hash, check_mac, check_open,
    check_seal, check_unwrap, check_wrap,
};
use crate::vector::Vector;
use engine_core::Engine;

/// Makes the calls of a vector, each once and in their order, and says whether all answers are the expected ones. The words of the
/// vector have at most 65,700 bytes together; `work` has 131,456 or more, and holds anything afterwards.
pub fn check<E: Engine>(engine: &mut E, vector: &Vector, work: &mut [u8]) -> bool
    requires short { 2 * bytes_in vector.now ≤ 131400 }
    requires allowed { has_allowed_lengths vector.now ≡ true }
    requires room { 131456 ≤ length work.old }
    ensures passed { result ≡ (outcome E.calls engine.old vector.now).passed }
    ensures engine { engine.new ≡ (outcome E.calls engine.old vector.now).engine }
{
    match vector {
        Vector::Hash { alg, text, out } => check_hash(engine, *alg, text, out, work),
        Vector::Mac {
            alg,
            key,
            text,
            out,
        } => check_mac(engine, *alg, key, text, out, work),
        Vector::Seal {
            key,
            iv,
            aad,
            text,
            out,
            tag,
        } => check_seal(engine, key, iv, aad, text, out, tag, work),
        Vector::Open {
            key,
            iv,
            aad,
            text,
            tag,
            out,
        } => check_open(engine, key, iv, aad, text, tag, out, work),
        Vector::Wrap {
            pad,
            key,
            text,
            out,
        } => check_wrap(engine, *pad, key, text, out, work),
        Vector::Unwrap {
            pad,
            key,
            text,
            out,
        } => check_unwrap(engine, *pad, key, text, out, work),
        Vector::Derive {
            key,
            label,
            context,
            out,
        } => check_derive(engine, key, label, context, out, work),
        Vector::Drbg {
            entropy,
            nonce,
            personal,
            out,
        } => check_drbg(engine, entropy, nonce, personal, out, work),
        Vector::Cmac { key, text, out } => check_cmac(key, text, out, work),
        Vector::CmacKdf {
            mode,
            key,
            label,
            context,
            out,
        } => check_cmac_kdf(*mode, key, label, context, out, work),
    }
}

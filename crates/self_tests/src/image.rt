//! The test of the program's image.
ghost use Rattle.std.specs.Prelude.{◌≡◌, take};
ghost use Rattle.self_tests.specs.Integrity.{image_digest, image_digest_after, image_outcome};

use crate::answers::equal;
use crate::table::IMAGE_KEY;
use bits_core::Alg;
use engine_core::Engine;

// The leftmost 32 bytes of an engine's output.
fn leftmost(whole: &[u8; 64]) -> [u8; 32]
    ensures { result ≡ take 32 whole.now }
{
    let mut front = [0; 32];
    front.copy_from_slice(&whole[..32]);
    front
}

/// The digest of an image (ISO/IEC 19790:2012, 7.10.2.2): its HMAC-SHA-256 under the image key, all 32 bytes of it. The image has any
/// length.
pub fn image_digest<E: Engine>(engine: &mut E, image: &[u8]) -> [u8; 32]
    ensures digest { result ≡ image_digest E.calls engine.old image.now }
    ensures engine { engine.new ≡ image_digest_after E.calls engine.old image.now }
{
    let mut out = [0; 64];
    engine.mac(Alg::Sha256, &IMAGE_KEY, image, &mut out);
    leftmost(&out)
}

/// Whether an image is what it was when its digest was made.
pub fn integrity<E: Engine>(engine: &mut E, image: &[u8], digest: &[u8; 32]) -> bool
    ensures right { result ≡ (image_outcome E.calls engine.old image.now digest.now).right }
    ensures engine { engine.new ≡ (image_outcome E.calls engine.old image.now digest.now).engine }
{
    equal(&image_digest(engine, image), digest)
}

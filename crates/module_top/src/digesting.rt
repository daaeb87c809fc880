// The digest of an image, as a line of text.
ghost use Rattle.std.specs.Prelude.{◌≡◌, ◌++◌, [], ◌∷◌, Some, None};
ghost use Rattle.hex.specs.Hex.{encode_lower};
ghost use Rattle.program_words.specs.Faults.{result_status};
ghost use Rattle.program_words.specs.Forms.{Digest};
ghost use Rattle.module_top.specs.Outcomes.{IsOutcome};

use crate::loading::load_image;
use engine_core::Engine;
use hex::encode_to_slice;
use outside::{Files, Sink};
use program_words::RunFault;
use self_tests::image_digest;
use std::alloc::Global;
use stream_calls::write_all;

// A digest as 64 lower-case hex digits and an LF.
fn line_of(digest: &[u8; 32]) -> [u8; 65]
    ensures { result ≡ encode_lower digest.now ++ 10 ∷ [] }
{
    let mut line = [b'\n'; 65];
    let _ = encode_to_slice(digest.as_slice(), &mut line[..64]);
    line
}

/// Writes the digest of the image of this name, made by the engine. It has no source.
pub fn digest_image<E: Engine, F: Files, K: Sink>(
    alloc: Global,
    name: &str,
    files: &mut F,
    replies: &mut K,
    mut engine: E,
) -> Result<(), RunFault>
    ensures outcome { IsOutcome E.calls engine (F.content files.old) (Some (Digest name.now)) (result_status result)
        (record {
          source = tt {0};
          sink = replies.old;
          streams = record { left = None; gained = K.gained replies.old };
          file_faults = F.faults files.old;
          read_faults = 0;
          write_faults = K.faults replies.old;
        })
        (record {
          source = tt {0};
          sink = replies.new;
          streams = record { left = None; gained = K.gained replies.new };
          file_faults = F.faults files.new;
          read_faults = 0;
          write_faults = K.faults replies.new;
        }) }
{
    let image = load_image(alloc, files, name)?;
    let digest = image_digest(&mut engine, &image);
    match write_all(replies, &line_of(&digest)) {
        Ok(()) => Ok(()),
        Err(_) => Err(RunFault::WriteFailed),
    }
}

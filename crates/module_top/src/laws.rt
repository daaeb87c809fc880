// Laws of the program's definition, each the contract of a function without a body.
ghost use Rattle.std.specs.Prelude.{◌≡◌, ℕ, List, Some};
ghost use Rattle.self_tests.specs.Integrity.{image_digest};
ghost use Rattle.program_words.specs.DigestFile.{digest_of};
ghost use Rattle.module_top.specs.Program.{HasOneOutput, digest_line};

use engine_core::Engine;

/// The definition leaves nothing open: for an engine, words, files and input there is one status and one output.
pub fn has_one_output<E: Engine>()
    ensures { HasOneOutput E.calls }
{}

/// The line that `digest` writes for an image is a digest file, and spells the image's digest.
pub fn digest_line_is_read<E: Engine>()
    ensures { (engine : E) (image : List ℕ) → digest_of (digest_line E.calls engine image) ≡ Some (image_digest E.calls engine image) }
{}

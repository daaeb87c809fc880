//! Laws of the definitions. Each is the contract of a function that does nothing; to call it is to cite it.
ghost use Rattle.std.specs.Prelude.{◌≡◌, ◌<◌, ◌≤◌, ℕ, List};
ghost use Rattle.bits_core.specs.ByteList.{IsBytes};
ghost use Rattle.aes_spec.specs.Field.{times, inverse, power};
ghost use Rattle.aes_spec.specs.Aes.{IsState};
ghost use Rattle.aes_spec.specs.Key.{aes, aes_inverse};
ghost use Rattle.aes_spec.specs.Gctr.{gctr};

/// The product of a byte other than 0 with its inverse is 1.
pub fn inverse_law()
    ensures { (b : ℕ) → 1 ≤ b → b < 256 → times b (inverse b) ≡ 1 }
{}

/// The inverse of a byte is its power 254, also at 0.
pub fn power_law()
    ensures { (b : ℕ) → b < 256 → power b 254 ≡ inverse b }
{}

/// Deciphering an enciphered block gives the block, for a key of any length.
pub fn decryption_undoes_encryption()
    ensures { (key block : List ℕ) → IsBytes key → IsState block → aes_inverse key (aes key block) ≡ block }
{}

/// Enciphering a deciphered block gives the block, for a key of any length.
pub fn encryption_undoes_decryption()
    ensures { (key block : List ℕ) → IsBytes key → IsState block → aes key (aes_inverse key block) ≡ block }
{}

/// Adding the same key stream twice gives the text.
pub fn gctr_undoes_itself()
    ensures { (enciphered : List ℕ → List ℕ) (start text : List ℕ) → gctr enciphered start (gctr enciphered start text) ≡ text }
{}

//! Laws of the definitions. Each is the contract of a function that does nothing; to call it is to cite it.
ghost use Rattle.std.specs.Prelude.{◌≡◌, ◌↔◌, ℕ, List, Some, None};
ghost use Rattle.bits_core.specs.ByteList.{IsBytes};
ghost use Rattle.key_wrap.specs.InPlace.{IsPadded, IsSemiblocks};
ghost use Rattle.key_wrap.specs.Unwrapping.{unkw, unkwp};
ghost use Rattle.key_wrap.specs.Wrapping.{IsKwOf, IsKwpOf};

/// At most one plaintext has these bytes as its KW wrapping.
pub fn kw_plaintext_is_unique()
    ensures { (key w p q : List ℕ) → IsBytes key → IsKwOf key w p → IsKwOf key w q → p ≡ q }
{}

/// At most one plaintext has these bytes as its KWP wrapping.
pub fn kwp_plaintext_is_unique()
    ensures { (key w p q : List ℕ) → IsBytes key → IsKwpOf key w p → IsKwpOf key w q → p ≡ q }
{}

/// Undoing the steps of W and testing gives a plaintext exactly where one has these 24 to 72 bytes as its KW wrapping, and that one.
pub fn kw_plaintext_is_computed()
    ensures some { (key w p : List ℕ) → IsBytes key → IsBytes w → IsSemiblocks w → (unkw key w ≡ Some p) ↔ IsKwOf key w p }
    ensures none { (key w : List ℕ) → IsBytes key → IsBytes w → IsSemiblocks w
        → (unkw key w ≡ None) ↔ ((p : List ℕ) → ¬ (IsKwOf key w p)) }
{}

/// The same of KWP, for 16 to 72 bytes.
pub fn kwp_plaintext_is_computed()
    ensures some { (key w p : List ℕ) → IsBytes key → IsBytes w → IsPadded w → (unkwp key w ≡ Some p) ↔ IsKwpOf key w p }
    ensures none { (key w : List ℕ) → IsBytes key → IsBytes w → IsPadded w
        → (unkwp key w ≡ None) ↔ ((p : List ℕ) → ¬ (IsKwpOf key w p)) }
{}

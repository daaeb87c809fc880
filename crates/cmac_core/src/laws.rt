//! A law of the definitions, as the contract of a function that does nothing; to call it is to cite it.
ghost use Rattle.std.specs.Prelude.{◌≡◌, ◌<◌, ℕ, List};
ghost use Rattle.cmac_core.specs.Cmac.{blocks_before, is_whole, padded_block, text_block};

/// The padded blocks and the choice of the subkey determine the text.
pub fn padding_determines_the_text()
    ensures { (a b : List ℕ) → blocks_before a ≡ blocks_before b
        → ((i : ℕ) → i < blocks_before a → text_block a i ≡ text_block b i)
        → padded_block a ≡ padded_block b → is_whole a ≡ is_whole b → a ≡ b }
{}

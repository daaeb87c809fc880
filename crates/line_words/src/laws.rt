//! Laws of the definitions, for callers to cite.
ghost use Rattle.std.specs.Prelude.{◌≡◌, ◌≢◌, ◌↔◌, ℕ, List, []};
ghost use Rattle.line_words.specs.Words.{words_of, joined_words, HaveNoSpace};

/// The words of a line are the one list of words without spaces, not the empty one, that the line joins by single spaces.
pub fn words_join_to_the_line()
    ensures joined { (line : List ℕ) → joined_words (words_of line) ≡ line }
    ensures free { (line : List ℕ) → HaveNoSpace (words_of line) }
    ensures some { (line : List ℕ) → words_of line ≢ [] }
    ensures only { (words : List (List ℕ)) → HaveNoSpace words → words ≢ [] → words_of (joined_words words) ≡ words }
{}

//! Cutting a line into words.
ghost use Rattle.std.specs.Prelude.{◌≡◌, ◌≤◌, ◌+◌, ◌∷◌, length};
ghost use Rattle.line_words.specs.Words.{words_of, words_left, length_left};
ghost use Rattle.line_words.specs.Cuts.{word_length};

/// The first word of a line, and what is left of the line behind the space after it: `None` where the word ends the line.
#[derive(Clone, Copy)]
pub struct FirstWord<'a> {
    pub word: &'a [u8],
    pub rest: Option<&'a [u8]>,
}

// The number of bytes before the first space.
fn word_length(line: &[u8]) -> usize
    ensures place { result ≡ word_length line.now }
    ensures within { result ≤ length line.now }
{
    for place in 0..line.len() {
        if line[place] == b' ' {
            return place;
        }
    }
    line.len()
}

/// Cuts off the first word of a line of any length. The word is empty where the line is, or begins with a space.
pub fn first_word(line: &[u8]) -> FirstWord
    ensures words { words_of line.now ≡ result.word.now ∷ words_left result.rest }
    ensures lengths { length result.word.now + length_left result.rest ≡ length line.now }
{
    let end = word_length(line);
    if end == line.len() {
        return FirstWord {
            word: line,
            rest: None,
        };
    }
    FirstWord {
        word: &line[..end],
        rest: Some(&line[end + 1..]),
    }
}

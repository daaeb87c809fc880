//! KEYEXPANSION() (FIPS 197, section 5.2).
ghost use Rattle.std.specs.Prelude.{◌≡◌, ◌≤◌, ◌<◌, ◌+◌, ◌-◌, ◌*◌, ◌/◌, ◌++◌, length, IsTrue};
ghost use Rattle.bits_core.specs.Parameters.{is_aes_length};
ghost use Rattle.aes_spec.specs.Key.{added_word, word_sum, next_word, key_words, schedule_words};
ghost use Rattle.aes_core.specs.Schedules.{zero_words};

use aes_lanes::sub_word;

/// The first byte of round constant j (FIPS 197, section 5.2), and 1 at 0.
static ROUND_CONSTANTS: [u8; 15] = [
    0x01, 0x01, 0x02, 0x04, 0x08, 0x10, 0x20, 0x40, 0x80, 0x1b, 0x36, 0x6c, 0xd8, 0xab, 0x4d,
];

/// What word `i` adds to the word `nk` places before it; `last` is word `i - 1`.
fn added(last: [u8; 4], i: usize, nk: usize) -> [u8; 4]
    requires index { i < 60 }
    requires words { 4 ≤ nk }
    ensures { result ≡ added_word nk i last }
{
    if i % nk == 0 {
        let [a, b, c, d] = sub_word(last);
        [b ^ ROUND_CONSTANTS[i / nk], c, d, a]
    } else if nk == 8 && i % 8 == 4 {
        sub_word(last)
    } else {
        last
    }
}

/// The sum of two words.
fn word_sum(a: [u8; 4], b: [u8; 4]) -> [u8; 4]
    ensures { result ≡ word_sum a b }
{
    [a[0] ^ b[0], a[1] ^ b[1], a[2] ^ b[2], a[3] ^ b[3]]
}

/// Word `i` of the schedule, from the key and the words before it.
fn next(words: &[[u8; 4]; 60], key: &[u8], i: usize) -> [u8; 4]
    requires fits { IsTrue (is_aes_length (length key.now)) }
    requires index { i < 60 }
    ensures { result ≡ next_word key.now (key_words key.now) words.now i }
{
    let nk = key.len() / 4;
    if i < nk {
        [key[4 * i], key[4 * i + 1], key[4 * i + 2], key[4 * i + 3]]
    } else {
        word_sum(words[i - nk], added(words[i - 1], i, nk))
    }
}

/// Fills wiped words with the schedule of a key.
pub(crate) fn fill(words: &mut [[u8; 4]; 60], key: &[u8])
    requires fits { IsTrue (is_aes_length (length key.now)) }
    requires wiped { words.old ≡ zero_words 60 }
    ensures { words.new ≡ schedule_words key.now ++ zero_words (60 - 4 * (key_words key.now + 7)) }
{
    for i in 0..4 * (key.len() / 4 + 7) {
        words[i] = next(words, key, i);
    }
}

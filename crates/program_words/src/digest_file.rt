// The file of an image's digest.
ghost use Rattle.std.specs.Prelude.{◌≡◌};
ghost use Rattle.std.specs.Result.{result_ok};
ghost use Rattle.hex.specs.Hex.{decode_sized};
ghost use Rattle.program_words.specs.DigestFile.{digest_of};

use hex::FromHex;

// The 32 bytes that hex digits spell, where there are 64 digits and nothing else.
fn spelled_by(digits: &[u8]) -> Option<[u8; 32]>
    ensures { result ≡ result_ok (decode_sized digits.now 32) }
{
    <[u8; 32] as FromHex>::from_hex(digits).ok()
}

/// The 32 bytes that the text of a digest file spells: 64 hex digits of either case, and at most one LF behind them. `None` where it
/// isn't of this form.
pub fn digest_of(text: &[u8]) -> Option<[u8; 32]>
    ensures { result ≡ digest_of text.now }
{
    match text.strip_suffix(b"\n") {
        Some(digits) => spelled_by(digits),
        None => spelled_by(text),
    }
}

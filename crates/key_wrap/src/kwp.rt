//! KWP: wrapping with padding (SP 800-38F, section 6.3).
ghost use Rattle.std.specs.Prelude.{◌≡◌, ◌≤◌, ◌<◌, ◌+◌, ◌-◌, ◌*◌, ◌/◌, ◌%◌, ◌↔◌, ℕ, List, length, take, drop, IsNone, IfNone, IfSome};
ghost use Rattle.bits_core.specs.ByteList.{IsBytes, zeros, zero_padded};
ghost use Rattle.aes_core.specs.Key.{aes};
ghost use Rattle.aes_core.specs.Schedules.{IsExpanded};
ghost use Rattle.key_wrap.specs.Unwrapping.{unkwp, ShowsValue};
ghost use Rattle.key_wrap.specs.Wrapping.{kwp, padded, IsKwpOf, IsKwpPlain};
ghost use Rattle.key_wrap.specs.InPlace.{padded_cipher, IsPadded, IsPaddedFrom};

use crate::buffer::{put_header, take_header};
use crate::semiblocks::{unwrap_semiblocks, wrap_semiblocks};
use aes_core::Schedule;
use bits_core::{same, wipe};

/// ICV2 of section 6.3.
const CHECK_VALUE: [u8; 4] = [0xa6, 0x59, 0x59, 0xa6];

/// A text of one block.
fn block_of(text: &[u8]) -> [u8; 16]
    requires { length text.now ≡ 16 }
    ensures same { result ≡ text.now }
    ensures bytes { IsBytes result }
{
    let mut block = [0; 16];
    block.copy_from_slice(text);
    block
}

/// Enciphers a padded plaintext: one block where it has two semiblocks, else W.
fn encipher_padded(schedule: &Schedule, text: &mut [u8])
    requires rounds { 0 < schedule.now.rounds }
    requires semiblocks { IsPadded text.old }
    ensures { (key : List ℕ) → IsExpanded schedule.now key → text.new ≡ padded_cipher (aes key) text.old }
{
    if text.len() == 16 {
        let mut block = block_of(text);
        schedule.encrypt(&mut block);
        text.copy_from_slice(&block);
    } else {
        wrap_semiblocks(schedule, text);
    }
}

/// The list that `encipher_padded` enciphers to this one.
fn decipher_padded(schedule: &Schedule, text: &mut [u8])
    requires rounds { 0 < schedule.now.rounds }
    requires semiblocks { IsPadded text.old }
    ensures opened { (key : List ℕ) → IsExpanded schedule.now key → text.old ≡ padded_cipher (aes key) text.new }
    ensures bytes { IsBytes text.new }
{
    if text.len() == 16 {
        let mut block = block_of(text);
        schedule.decrypt(&mut block);
        text.copy_from_slice(&block);
    } else {
        unwrap_semiblocks(schedule, text);
    }
}

/// The length of the plaintext that was padded to this text, if there is one (section 6.3, algorithm 6).
fn plain_length(text: &[u8]) -> Option<usize>
    requires { IsPadded text.now }
    ensures some { IfSome result (λ size. IsPaddedFrom text.now size) }
    ensures none { IfNone result ((p : List ℕ) → IsKwpPlain p → ¬ (text.now ≡ padded p)) }
{
    if !same(&text[..4], &CHECK_VALUE) {
        return None;
    }
    let size = u32::from_be_bytes([text[4], text[5], text[6], text[7]]) as usize;
    let room = text.len() - 8;
    // The room is 8 bytes at least, so this refuses a length of 0 too.
    if size > room || size + 7 < room {
        return None;
    }
    if !same(&text[size + 8..], &[0; 8][..room - size]) {
        return None;
    }
    Some(size)
}

/// Wraps the first `length` bytes of `buf` under the key that `schedule` was expanded from, and
/// answers the length of the wrapping: `length` filled up to a multiple of 8, and 8 bytes more. The
/// wrapping stands at the front of `buf`, with zeros after it (SP 800-38F, algorithm 5).
///
/// `length` is from 1 to 64.
pub fn wrap_pad(schedule: &Schedule, buf: &mut [u8; 80], length: usize) -> usize
    requires expanded { 0 < schedule.now.rounds }
    requires least { 1 ≤ length }
    requires most { length ≤ 64 }
    ensures size { result ≡ 8 * ((length + 7) / 8) + 8 }
    ensures wrapped { (key : List ℕ) → IsExpanded schedule.now key → buf.new ≡ zero_padded 80 (kwp (aes key) (take length buf.old)) }
{
    let [n0, n1, n2, n3] = (length as u32).to_be_bytes();
    put_header(buf, &[0xa6, 0x59, 0x59, 0xa6, n0, n1, n2, n3], length);
    let size = 8 * ((length + 7) / 8) + 8;
    encipher_padded(schedule, &mut buf[..size]);
    size
}

/// Unwraps the first `length` bytes of `buf` and answers the length of the plaintext, which stands at
/// the front of `buf` with zeros after it (SP 800-38F, algorithm 6).
///
/// None comes exactly where no plaintext of 1 to 64 bytes has these bytes as its wrapping under the
/// key that `schedule` was expanded from; then `buf` is all zero. `length` is a multiple of 8 from 16
/// to 72.
pub fn unwrap_pad(schedule: &Schedule, buf: &mut [u8; 80], length: usize) -> Option<usize>
    requires expanded { 0 < schedule.now.rounds }
    requires least { 16 ≤ length }
    requires most { length ≤ 72 }
    requires whole { length % 8 ≡ 0 }
    ensures found { (key : List ℕ) → IsExpanded schedule.now key
        → IfSome result (λ size. IsKwpOf key (take length buf.old) (take size buf.new)) }
    ensures refused { (key : List ℕ) → IsExpanded schedule.now key
        → IsNone result ↔ ((p : List ℕ) → ¬ (IsKwpOf key (take length buf.old) p)) }
    ensures value { (key : List ℕ) → IsExpanded schedule.now key → ShowsValue (unkwp key (take length buf.old)) result buf.new }
    ensures size { IfSome result (λ size. (1 ≤ size) × (size + 8 ≤ length)) }
    ensures padded { IfSome result (λ size. drop size buf.new ≡ zeros (80 - size)) }
    ensures wiped { IfNone result (buf.new ≡ zeros 80) }
{
    decipher_padded(schedule, &mut buf[..length]);
    match plain_length(&buf[..length]) {
        Some(size) => {
            take_header(buf, size);
            Some(size)
        }
        None => {
            wipe(buf);
            None
        }
    }
}

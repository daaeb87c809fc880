// The summary's lines, put into an outbox.
ghost use Rattle.std.specs.Prelude.{◌≡◌, ◌≤◌, ◌+◌, ◌++◌, ℕ, [], ◌∷◌, List, codes, get_or, length, map};
ghost use Rattle.std.specs.List.{flat_map, range_with_len};
ghost use Rattle.std.specs.Fmt.{decimal};
ghost use Rattle.sha2.specs.Sha256.{sha256};
ghost use Rattle.sha2.specs.Hashers.{Holds256};
ghost use Rattle.hex.specs.Hex.{encode_lower};
ghost use Rattle.bits_core.specs.OutboxContents.{holding};
ghost use Rattle.module_frames.specs.ReplyFrames.{ReplyFrame};
ghost use Rattle.session_runs.specs.Summaries.{word_line, status_words, summary};
ghost use Rattle.session_runs.specs.Tallies.{IsTallyOf};

use crate::limits::STATUSES;
use crate::tally::Tally;
use bits_core::{Enabled, Outbox, Port};
use itoa::Buffer;
use reply_lines::state_name;
use service_table::State;
use sha2::{Digest, Sha256};

// Puts a word and a byte behind it.
fn put_word(port: &mut Port<'_, Enabled>, word: &[u8], behind: u8)
    requires { length port.old.outbox.now.bytes + length word.now + 1 ≤ port.old.outbox.now.room }
    ensures same { port.new.outbox.ghost_name ≡ port.old.outbox.ghost_name }
    ensures put { port.new.outbox.now ≡ holding (port.old.outbox.now.bytes ++ (word.now ++ behind ∷ [])) port.old.outbox.now.room }
{
    port.put(word);
    port.put(&[behind]);
}

// Puts a number in decimal digits, of which there are at most twenty, and a byte behind it.
fn put_number(port: &mut Port<'_, Enabled>, number: u64, behind: u8)
    requires { length port.old.outbox.now.bytes + 21 ≤ port.old.outbox.now.room }
    ensures same { port.new.outbox.ghost_name ≡ port.old.outbox.ghost_name }
    ensures put { port.new.outbox.now ≡ holding (port.old.outbox.now.bytes ++ (decimal number ++ behind ∷ [])) port.old.outbox.now.room }
    ensures short { length (decimal number) ≤ 20 }
{
    let mut buffer = Buffer::new();
    put_word(port, buffer.format(number).as_bytes(), behind);
}

// Puts the line of a name and a number.
fn put_number_line(port: &mut Port<'_, Enabled>, name: &[u8], number: u64)
    requires name { length name.now ≤ 8 }
    requires room { length port.old.outbox.now.bytes + 80 ≤ port.old.outbox.now.room }
    ensures same { port.new.outbox.ghost_name ≡ port.old.outbox.ghost_name }
    ensures room { port.new.outbox.now.room ≡ port.old.outbox.now.room }
    ensures put { port.new.outbox.now.bytes ≡ port.old.outbox.now.bytes ++ word_line (name.now ∷ decimal number ∷ []) }
    ensures long { length port.new.outbox.now.bytes ≤ length port.old.outbox.now.bytes + 80 }
{
    put_word(port, name, b' ');
    put_number(port, number, b'\n');
}

// Puts the line of a name and a word.
fn put_word_line(port: &mut Port<'_, Enabled>, name: &[u8], word: &[u8])
    requires words { length name.now + length word.now ≤ 78 }
    requires room { length port.old.outbox.now.bytes + 80 ≤ port.old.outbox.now.room }
    ensures same { port.new.outbox.ghost_name ≡ port.old.outbox.ghost_name }
    ensures room { port.new.outbox.now.room ≡ port.old.outbox.now.room }
    ensures put { port.new.outbox.now.bytes ≡ port.old.outbox.now.bytes ++ word_line (name.now ∷ word.now ∷ []) }
    ensures long { length port.new.outbox.now.bytes ≤ length port.old.outbox.now.bytes + 80 }
{
    put_word(port, name, b' ');
    put_word(port, word, b'\n');
}

// Puts the line of a status.
fn put_status_line(port: &mut Port<'_, Enabled>, number: u8, count: u64)
    requires room { length port.old.outbox.now.bytes + 80 ≤ port.old.outbox.now.room }
    ensures same { port.new.outbox.ghost_name ≡ port.old.outbox.ghost_name }
    ensures room { port.new.outbox.now.room ≡ port.old.outbox.now.room }
    ensures put { port.new.outbox.now.bytes ≡ port.old.outbox.now.bytes ++ word_line (status_words number count) }
    ensures long { length port.new.outbox.now.bytes ≤ length port.old.outbox.now.bytes + 80 }
{
    put_word(port, b"status", b' ');
    put_number(port, u64::from(number), b' ');
    put_number(port, count, b'\n');
}

// Puts the lines of all statuses, with these counts.
fn put_status_lines(port: &mut Port<'_, Enabled>, counts: &[u64; STATUSES])
    requires room { length port.old.outbox.now.bytes + 1280 ≤ port.old.outbox.now.room }
    ensures same { port.new.outbox.ghost_name ≡ port.old.outbox.ghost_name }
    ensures room { port.new.outbox.now.room ≡ port.old.outbox.now.room }
    ensures put { port.new.outbox.now.bytes ≡ port.old.outbox.now.bytes
        ++ flat_map word_line (map (λ number. status_words number (get_or counts.now number 0)) (range_with_len 0 16)) }
    ensures long { length port.new.outbox.now.bytes ≤ length port.old.outbox.now.bytes + 1280 }
{
    for number in 0..STATUSES as u8 {
        put_status_line(port, number, counts[usize::from(number)]);
    }
}

// Puts the line of the SHA-256 of what the hasher has taken, in lower-case hex digits.
fn put_digest_line(port: &mut Port<'_, Enabled>, hasher: Sha256)
    requires room { length port.old.outbox.now.bytes + 80 ≤ port.old.outbox.now.room }
    ensures same { port.new.outbox.ghost_name ≡ port.old.outbox.ghost_name }
    ensures room { port.new.outbox.now.room ≡ port.old.outbox.now.room }
    ensures put { (message : List ℕ) → Holds256 hasher message →
        port.new.outbox.now.bytes ≡ port.old.outbox.now.bytes ++ word_line (codes "sha256" ∷ encode_lower (sha256 message) ∷ []) }
{
    let digest = hasher.finalize();
    let mut digits = [0; 64];
    let written = hex::encode_to_slice(digest, &mut digits).is_ok();
    prove!(written);
    put_word_line(port, b"sha256", &digits);
}

// Puts all lines of the summary.
fn put_lines(port: &mut Port<'_, Enabled>, tally: Tally, last: State)
    requires empty { port.old.outbox.now.bytes ≡ [] }
    requires room { 1600 ≤ port.old.outbox.now.room }
    ensures same { port.new.outbox.ghost_name ≡ port.old.outbox.ghost_name }
    ensures room { port.new.outbox.now.room ≡ port.old.outbox.now.room }
    ensures put { (replies : List ReplyFrame) → IsTallyOf tally replies → port.new.outbox.now.bytes ≡ summary replies last }
{
    put_number_line(port, b"commands", tally.commands);
    put_status_lines(port, &tally.statuses);
    put_number_line(port, b"payload", tally.payload);
    put_word_line(port, b"state", state_name(last));
    put_digest_line(port, tally.hasher);
}

/// Writes the summary of the replies that were counted in place of what the outbox held, which has room for 1,600 bytes.
pub(crate) fn write_summary(tally: Tally, last: State, into: &mut Outbox)
    requires { 1600 ≤ into.old.room }
    ensures room { into.new.room ≡ into.old.room }
    ensures written { (replies : List ReplyFrame) → IsTallyOf tally replies → into.new.bytes ≡ summary replies last }
{
    let mut port = Port::<Enabled>::over(into);
    put_lines(&mut port, tally, last);
}

// Writing a reply's line.
ghost use Rattle.std.specs.Prelude.{◌≡◌, ◌≤◌, ◌+◌, ◌*◌, ◌++◌, [], ◌∷◌, length};
ghost use Rattle.hex.specs.Hex.{encode_lower};
ghost use Rattle.bits_core.specs.OutboxContents.{holding};
ghost use Rattle.bits_core.specs.declared.limits.TheConstants.{LARGEST_PAYLOAD};
ghost use Rattle.module_frames.specs.Replies.{frame_of};
ghost use Rattle.reply_lines.specs.ReplyLines.{status_name, state_name, indicator_word, payload_word, reply_line};

use crate::names::{state_name, status_name};
use bits_core::{Enabled, Outbox, Port};
use module_frames::Reply;
use service_table::{State, Status};

// The two lower-case hex digits of a byte.
fn digits_of(byte: u8) -> [u8; 2]
    ensures { result ≡ encode_lower (byte ∷ []) }
{
    let mut digits = [0; 2];
    let written = hex::encode_to_slice([byte], &mut digits).is_ok();
    prove!(written);
    digits
}

// Puts the hex digits of bytes.
fn put_digits(port: &mut Port<'_, Enabled>, bytes: &[u8])
    requires { length port.old.outbox.now.bytes + 2 * length bytes.now ≤ port.old.outbox.now.room }
    ensures same { port.new.outbox.ghost_name ≡ port.old.outbox.ghost_name }
    ensures room { port.new.outbox.now.room ≡ port.old.outbox.now.room }
    ensures put { port.new.outbox.now.bytes ≡ port.old.outbox.now.bytes ++ encode_lower bytes.now }
{
    for byte in bytes {
        port.put(&digits_of(*byte));
    }
}

// Puts a word and a byte behind it.
fn put_word(port: &mut Port<'_, Enabled>, word: &[u8], behind: u8)
    requires { length port.old.outbox.now.bytes + length word.now + 1 ≤ port.old.outbox.now.room }
    ensures same { port.new.outbox.ghost_name ≡ port.old.outbox.ghost_name }
    ensures put { port.new.outbox.now ≡ holding (port.old.outbox.now.bytes ++ (word.now ++ behind ∷ [])) port.old.outbox.now.room }
{
    port.put(word);
    port.put(&[behind]);
}

// Puts the hex digits of bytes, and a byte behind them.
fn put_hex(port: &mut Port<'_, Enabled>, bytes: &[u8], behind: u8)
    requires { length port.old.outbox.now.bytes + 2 * length bytes.now + 1 ≤ port.old.outbox.now.room }
    ensures same { port.new.outbox.ghost_name ≡ port.old.outbox.ghost_name }
    ensures put { port.new.outbox.now ≡ holding (port.old.outbox.now.bytes ++ (encode_lower bytes.now ++ behind ∷ [])) port.old.outbox.now.room }
{
    put_digits(port, bytes);
    port.put(&[behind]);
}

// Puts the status, the state and the indicator, with a space behind each.
fn put_outcome(port: &mut Port<'_, Enabled>, status: Status, state: State, approved: bool)
    requires { length port.old.outbox.now.bytes + 26 ≤ port.old.outbox.now.room }
    ensures same { port.new.outbox.ghost_name ≡ port.old.outbox.ghost_name }
    ensures put { port.new.outbox.now ≡ holding (port.old.outbox.now.bytes
        ++ (status_name status ++ 0x20 ∷ (state_name state ++ 0x20 ∷ (indicator_word approved ++ 0x20 ∷ [])))) port.old.outbox.now.room }
{
    put_word(port, status_name(status), b' ');
    put_word(port, state_name(state), b' ');
    let indicator = if approved { b'1' } else { b'0' };
    port.put(&[indicator, b' ']);
}

// Puts the block, with a space behind it.
fn put_block(port: &mut Port<'_, Enabled>, block: &[u8; 12])
    requires { length port.old.outbox.now.bytes + 25 ≤ port.old.outbox.now.room }
    ensures same { port.new.outbox.ghost_name ≡ port.old.outbox.ghost_name }
    ensures put { port.new.outbox.now ≡ holding (port.old.outbox.now.bytes ++ (encode_lower block.now ++ 0x20 ∷ [])) port.old.outbox.now.room }
    ensures long { length (encode_lower block.now) ≡ 24 }
{
    put_hex(port, block, b' ');
}

// Puts the payload, and an LF behind it.
fn put_payload(port: &mut Port<'_, Enabled>, payload: &[u8])
    requires { length port.old.outbox.now.bytes + 2 * length payload.now + 2 ≤ port.old.outbox.now.room }
    ensures same { port.new.outbox.ghost_name ≡ port.old.outbox.ghost_name }
    ensures put { port.new.outbox.now ≡ holding (port.old.outbox.now.bytes ++ (payload_word payload.now ++ 0x0a ∷ [])) port.old.outbox.now.room }
{
    if payload.is_empty() {
        port.put(b"-\n");
    } else {
        put_hex(port, payload, b'\n');
    }
}

// Puts the line of a reply.
fn put_line(port: &mut Port<'_, Enabled>, reply: &Reply)
    requires empty { port.old.outbox.now.bytes ≡ [] }
    requires room { 131456 ≤ port.old.outbox.now.room }
    ensures same { port.new.outbox.ghost_name ≡ port.old.outbox.ghost_name }
    ensures put { port.new.outbox.now ≡ holding (reply_line (frame_of reply.now)) port.old.outbox.now.room }
{
    put_outcome(port, reply.status, reply.state, reply.approved);
    put_hex(port, &reply.code.to_be_bytes(), b' ');
    put_block(port, &reply.block);
    put_payload(port, reply.payload.bytes());
}

/// Writes the line of a reply in place of what the outbox held, which has room for 131,456 bytes: the status, the state, the indicator, the
/// error code, the block and the payload, in words that are parted by single spaces, and an LF.
pub fn write_line(reply: &Reply, into: &mut Outbox)
    requires { 131456 ≤ into.old.room }
    ensures { into.new ≡ holding (reply_line (frame_of reply.now)) into.old.room }
{
    let mut port = Port::<Enabled>::over(into);
    put_line(&mut port, reply);
}

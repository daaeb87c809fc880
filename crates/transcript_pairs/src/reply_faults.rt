// What the bytes of a reply tell before its head is whole.
ghost use Rattle.std.specs.Prelude.{◌≡◌, ◌≤◌, None, Some, IfSome, length};
ghost use Rattle.module_frames.specs.Streams.{has_no_version, is_numbered, is_wrong_at};
ghost use Rattle.module_frames.specs.ReplyHeads.{IsReplyHead};
ghost use Rattle.transcript_pairs.specs.ReplyStreams.{head_size, has_long_payload, is_no_indicator, is_no_state, is_no_status, payload_length, reply_fault};

use bits_core::LARGEST_PAYLOAD;
use module_frames::{ReplyHead, reply_head};
use service_table::{State, Status};

// Whether the byte at the offset is there and isn't the wanted one.
fn is_wrong_at(bytes: &[u8], offset: usize, wanted: u8) -> bool
    ensures { result ≡ is_wrong_at bytes.now offset wanted }
{
    match bytes.get(offset) {
        Some(byte) => *byte != wanted,
        None => false,
    }
}

// Whether the version is there, and is neither 1 nor 2.
fn has_no_version(bytes: &[u8]) -> bool
    ensures { result ≡ has_no_version bytes.now }
{
    is_wrong_at(bytes, 1, 0x01) && is_wrong_at(bytes, 1, 0x02)
}

// Whether the status is there, and no status has its number.
fn is_no_status(bytes: &[u8]) -> bool
    ensures { result ≡ is_no_status bytes.now }
{
    match bytes.get(3) {
        Some(byte) => Status::from_number(*byte).is_none(),
        None => false,
    }
}

// Whether the state is there, and no state has its number.
fn is_no_state(bytes: &[u8]) -> bool
    ensures { result ≡ is_no_state bytes.now }
{
    match bytes.get(4) {
        Some(byte) => State::from_number(*byte).is_none(),
        None => false,
    }
}

// Whether the indicator is there, and is neither 0 nor 1.
fn is_no_indicator(bytes: &[u8]) -> bool
    ensures { result ≡ is_no_indicator bytes.now }
{
    match bytes.get(5) {
        Some(byte) => *byte > 1,
        None => false,
    }
}

/// How many bytes the head has that begins so; without its version 24 at least.
#[tactic(auto, unfolding(crate::specs::ReplyStreams::head_size))]
pub fn head_size(bytes: &[u8]) -> usize
    ensures size { result ≡ head_size bytes.now }
    ensures most { result ≤ 28 }
{
    match bytes.get(1) {
        Some(2) => 28,
        _ => 24,
    }
}

// Whether the payload's length is there, and is above what a payload may have.
#[tactic(auto, unfolding(crate::specs::ReplyStreams::payload_length))]
fn has_long_payload(bytes: &[u8]) -> bool
    ensures { result ≡ has_long_payload bytes.now }
{
    if bytes.len() < 24 {
        return false;
    }
    let length = u32::from_be_bytes([bytes[20], bytes[21], bytes[22], bytes[23]]);
    length as usize > LARGEST_PAYLOAD
}

/// The offset of the first fault that the bytes of a reply show.
#[tactic(auto, unfolding(crate::specs::ReplyStreams::reply_fault))]
pub fn reply_fault(bytes: &[u8]) -> Option<u64>
    ensures offset { result ≡ reply_fault bytes.now }
    ensures front { IfSome result (λ offset. offset ≤ 20) }
{
    if is_wrong_at(bytes, 0, 0x5c) {
        Some(0)
    } else if has_no_version(bytes) {
        Some(1)
    } else if is_no_status(bytes) {
        Some(3)
    } else if is_no_state(bytes) {
        Some(4)
    } else if is_no_indicator(bytes) {
        Some(5)
    } else if has_long_payload(bytes) {
        Some(20)
    } else {
        None
    }
}

/// The head that whole bytes without a fault encode.
pub fn read_whole(bytes: &[u8]) -> ReplyHead
    requires no_fault { reply_fault bytes.now ≡ None }
    requires whole { head_size bytes.now ≤ length bytes.now }
    ensures { IsReplyHead result bytes.now }
{
    match reply_head(bytes) {
        Some(head) => head,
        None => unreachable!(),
    }
}

// The head of a reply, read from the first bytes of its frame.
ghost use Rattle.std.specs.Prelude.{◌≡◌, ◌+◌, ◌≤◌, ◌<◌, ◌^◌, length, take, drop};
ghost use Rattle.std.specs.Int.{to_be_bytes, w16, w32};
ghost use Rattle.module_frames.specs.ReplyHeads.{ReadsHead, indicated};
ghost use Rattle.module_frames.specs.HeadParts.{ReadsSequence};

use bits_core::LARGEST_PAYLOAD;
use service_table::{State, Status};

// The length of a head of version 1, in bytes, and that of one of version 2.
const PLAIN_HEAD: usize = 24;

const NUMBERED_HEAD: usize = 28;

/// The head of a reply: what the first 24 bytes of its frame tell, or the first 28 in version 2.
#[derive(Clone, Copy, Debug, PartialEq, Eq)]
pub struct ReplyHead {
    /// The number of the command's service.
    pub service: u8,
    /// The command's sequence number, in version 2.
    pub sequence: Option<u32>,
    /// Done, or the first reason of refusal.
    pub status: Status,
    /// The state after the command.
    pub state: State,
    /// The indicator of approved services. The standard asks for one (ISO/IEC 19790:2012, 7.2.4.2); that it is one byte of the head is
    /// this project's own form of it.
    pub approved: bool,
    /// The error code.
    pub code: u16,
    /// What a service that shows something tells.
    pub block: [u8; 12],
    /// The length of the payload that follows, in bytes: at most 65,664.
    pub length: u32,
}

// Whether the service was an approved one, by the indicator.
fn indicated(indicator: u8) -> Option<bool>
    ensures { result ≡ indicated indicator }
{
    match indicator {
        0 => Some(false),
        1 => Some(true),
        _ => None,
    }
}

// The error code.
fn code(bytes: &[u8]) -> u16
    requires { 24 ≤ length bytes.now }
    ensures encoded { to_be_bytes w16 result ≡ take 2 (drop 6 bytes.now) }
    ensures in_range { result < 2 ^ 16 }
{
    u16::from_be_bytes([bytes[6], bytes[7]])
}

// The block.
fn block(bytes: &[u8]) -> [u8; 12]
    requires { 24 ≤ length bytes.now }
    ensures { result ≡ take 12 (drop 8 bytes.now) }
{
    let mut block = [0; 12];
    block.copy_from_slice(&bytes[8..20]);
    block
}

// The number in the four bytes from this offset on.
fn number_at(bytes: &[u8], offset: usize) -> u32
    requires { offset + 4 ≤ length bytes.now }
    ensures encoded { to_be_bytes w32 result ≡ take 4 (drop offset bytes.now) }
    ensures in_range { result < 2 ^ 32 }
{
    u32::from_be_bytes([
        bytes[offset],
        bytes[offset + 1],
        bytes[offset + 2],
        bytes[offset + 3],
    ])
}

// The sequence number, or that there is none; `None` where the version is neither, or the bytes are too few for it.
fn sequence_of(bytes: &[u8]) -> Option<Option<u32>>
    requires { 24 ≤ length bytes.now }
    ensures { ReadsSequence bytes.now result }
{
    if bytes[1] == 0x01 {
        return Some(None);
    }
    if bytes[1] != 0x02 || bytes.len() < NUMBERED_HEAD {
        return None;
    }
    Some(Some(number_at(bytes, 24)))
}

/// Reads the head of a reply from the first bytes of its frame: byte 5C, version 01 or 02, the service, the numbers of
/// status and state, the indicator (0 or 1), the error code in two bytes, a block of 12 bytes, the payload's length in
/// four, and in version 2 the sequence number in four, each number big-endian. `None` exactly where no reply begins so: another
/// first byte or version, a number that no status or no state has, another indicator, a length above 65,664, or fewer bytes than
/// the 24 or 28 of the head. Bytes behind the head are not looked at.
pub fn reply_head(bytes: &[u8]) -> Option<ReplyHead>
    ensures { ReadsHead bytes.now result }
{
    if bytes.len() < PLAIN_HEAD || bytes[0] != 0x5c {
        return None;
    }
    let sequence = sequence_of(bytes)?;
    let status = Status::from_number(bytes[3])?;
    let state = State::from_number(bytes[4])?;
    let approved = indicated(bytes[5])?;
    let length = number_at(bytes, 20);
    if length as usize > LARGEST_PAYLOAD {
        return None;
    }
    Some(ReplyHead {
        service: bytes[2],
        sequence,
        status,
        state,
        approved,
        code: code(bytes),
        block: block(bytes),
        length,
    })
}

// A reply, and its header.
ghost use Rattle.std.specs.Prelude.{◌≡◌, ◌+◌, ◌-◌, ◌++◌, IfOk, length, take, drop};
ghost use Rattle.bits_core.specs.declared.limits.TheConstants.{LARGEST_PAYLOAD};
ghost use Rattle.bits_core.specs.ByteList.{zeros, zero_padded};
ghost use Rattle.module_frames.specs.CommandFrames.{version_of, sequence_bytes};
ghost use Rattle.module_frames.specs.ReplyHeads.{indicator};
ghost use Rattle.module_frames.specs.ReplyFrames.{reply_header};

use bits_core::{LARGEST_PAYLOAD, Outbox};
use service_table::{State, Status};
use std::alloc::{AllocError, Global};

/// A reply: what the module answers to a command. By a rule of the type there is room for 65,664 bytes of payload.
#[derive(Drop)]
pub struct Reply {
    /// The number of the command's service.
    pub service: u8,
    /// The command's sequence number, where it has one.
    pub sequence: Option<u32>,
    /// Done, or the first reason of refusal.
    pub status: Status,
    /// The state after the command.
    pub state: State,
    /// The indicator of approved services. The standard asks for one (ISO/IEC 19790:2012, 7.2.4.2); that it is one byte of the head is
    /// this project's own form of it.
    pub approved: bool,
    /// The error code.
    pub code: u16,
    /// What a service that shows something tells.
    pub block: [u8; 12],
    /// The data that the service gave.
    pub payload: Outbox,
    ghost room: { payload.room ≡ LARGEST_PAYLOAD },
}

fn indicator(approved: bool) -> u8
    ensures { result ≡ indicator approved }
{
    if approved { 1 } else { 0 }
}

// The version of the frame of a reply with this sequence number.
fn version(sequence: Option<u32>) -> u8
    ensures { result ≡ version_of sequence }
{
    match sequence {
        Some(_) => 0x02,
        None => 0x01,
    }
}

// The four bytes of a sequence number, or zeros.
fn number_bytes(sequence: Option<u32>) -> [u8; 4]
    ensures { result ≡ zero_padded 4 (sequence_bytes sequence) }
{
    match sequence {
        Some(number) => number.to_be_bytes(),
        None => [0; 4],
    }
}

// The length of the header of a reply with this sequence number.
fn header_length(sequence: Option<u32>) -> usize
    ensures { result ≡ 24 + length (sequence_bytes sequence) }
{
    match sequence {
        Some(_) => 28,
        None => 24,
    }
}

// Writes the five parts of a header one behind the other.
fn put_parts(
    into: &mut [u8; 28],
    front: &[u8; 6],
    code: &[u8; 2],
    block: &[u8; 12],
    payload: &[u8; 4],
    number: &[u8; 4],
)
    ensures { into.new ≡ front.now ++ (code.now ++ (block.now ++ (payload.now ++ number.now))) }
{
    into[..6].copy_from_slice(front);
    into[6..8].copy_from_slice(code);
    into[8..20].copy_from_slice(block);
    into[20..24].copy_from_slice(payload);
    into[24..].copy_from_slice(number);
}

impl Reply {
    ghost use Rattle.module_frames.specs.Replies.{frame_of, IsCleared};

    /// A cleared reply.
    pub fn new(alloc: Global) -> Result<Reply, AllocError>
        ensures { IfOk result IsCleared }
    {
        let payload = Outbox::new(alloc, LARGEST_PAYLOAD)?;
        Ok(Reply {
            service: 0,
            sequence: None,
            status: Status::Ok,
            state: State::Off,
            approved: false,
            code: 0,
            block: [0; 12],
            payload,
        })
    }

    // How many bytes of payload there are.
    fn payload_length(&self) -> u32
        ensures { result ≡ length self.now.payload.bytes }
    {
        self.payload.bytes().len() as u32
    }

    /// Writes the header of the reply's frame, and answers its length: 24 bytes, or 28 with a sequence number. The bytes past it are zero.
    pub fn header(&self, into: &mut [u8; 28]) -> usize
        ensures length { result ≡ length (reply_header (frame_of self.now)) }
        ensures header { take result into.new ≡ reply_header (frame_of self.now) }
        ensures spare { drop result into.new ≡ zeros (28 - result) }
    {
        let front = [
            0x5c,
            version(self.sequence),
            self.service,
            self.status.number(),
            self.state.number(),
            indicator(self.approved),
        ];
        let code = self.code.to_be_bytes();
        let length = self.payload_length().to_be_bytes();
        let number = number_bytes(self.sequence);
        put_parts(into, &front, &code, &self.block, &length, &number);
        header_length(self.sequence)
    }

    /// Makes all of it zero, and the payload empty.
    pub fn clear(&mut self)
        ensures { IsCleared self.new }
    {
        self.service = 0;
        self.sequence = None;
        self.status = Status::Ok;
        self.state = State::Off;
        self.approved = false;
        self.code = 0;
        self.block = [0; 12];
        self.payload.clear();
    }
}

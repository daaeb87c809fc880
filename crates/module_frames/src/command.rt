// A command, in a buffer of its own.
ghost use Rattle.std.specs.Prelude.{◌≡◌, ◌+◌, ◌≤◌, ◌++◌, [], IfOk, length, take, drop, replicate};
ghost use Rattle.bits_core.specs.declared.limits.TheConstants.{LARGEST_BODY};

use bits_core::LARGEST_BODY;
use std::alloc::{AllocError, Global};
use std::marker::Model;

/// A command: the number of a service, a sequence number where the command has one, and a body of at most 65,600 bytes. Contracts see these.
/// By a rule of the type the buffer's bytes past the body are zero.
#[derive(Drop)]
pub struct Command {
    service: u8,
    sequence: Option<u32>,
    buffer: Vec<u8>,
    used: usize,
}

impl Model for Command {
    ghost use Rattle.module_frames.specs.CommandFrames.{CommandFrame};

    ghost Value = { CommandFrame };

    ghost use Rattle.module_frames.specs.Buffers.{command_of, IsCommandBuffer};

    ghost view = { command_of };

    ghost invariant = { IsCommandBuffer };
}

// Puts a piece behind the bytes in use, and leaves all others.
fn put(buffer: &mut Vec<u8>, used: usize, piece: &[u8])
    requires { used + length piece.now ≤ length buffer.old.items }
    ensures { buffer.new.items ≡ take used buffer.old.items ++ (piece.now ++ drop (used + length piece.now) buffer.old.items) }
{
    let end = used + piece.len();
    buffer[used..end].copy_from_slice(piece);
}

// Makes the bytes in use zero, and leaves all others.
fn zero_used(buffer: &mut Vec<u8>, used: usize)
    requires { used ≤ length buffer.old.items }
    ensures { buffer.new.items ≡ replicate used 0 ++ drop used buffer.old.items }
{
    for offset in 0..used {
        buffer[offset] = 0;
    }
}

impl Command {
    /// The command of service 0, without a sequence number and with an empty body.
    pub fn new(alloc: Global) -> Result<Command, AllocError>
        ensures { IfOk result (λ command. command ≡ record { service = 0; sequence = None; body = [] }) }
    {
        let buffer = vec![in alloc; 0; LARGEST_BODY]?;
        Ok(Command {
            service: 0,
            sequence: None,
            buffer,
            used: 0,
        })
    }

    // Begins a command for the service, with an empty body, and with a sequence number where one is given.
    pub(crate) fn begin(&mut self, service: u8, sequence: Option<u32>)
        ensures { self.new ≡ record { service = service; sequence = sequence; body = [] } }
    {
        zero_used(&mut self.buffer, self.used);
        self.used = 0;
        self.service = service;
        self.sequence = sequence;
    }

    /// Begins a command of version 1 for the service, with an empty body.
    pub fn start(&mut self, service: u8)
        ensures { self.new ≡ record { service = service; sequence = None; body = [] } }
    {
        self.begin(service, None);
    }

    /// Adds a piece to the body, which has at most 65,600 bytes then.
    pub fn push(&mut self, piece: &[u8])
        requires { length self.old.body + length piece.now ≤ LARGEST_BODY }
        ensures { self.new ≡ record self.old { body = self.old.body ++ piece.now } }
    {
        put(&mut self.buffer, self.used, piece);
        self.used += piece.len();
    }

    /// Makes it the command of version 1 for the service with this body, of at most 65,600 bytes.
    pub fn set(&mut self, service: u8, body: &[u8])
        requires { length body.now ≤ LARGEST_BODY }
        ensures { self.new ≡ record { service = service; sequence = None; body = body.now } }
    {
        self.begin(service, None);
        self.push(body);
    }

    /// Makes it the command of version 2 for the service, with this sequence number and this body, of at most 65,600 bytes.
    pub fn set_numbered(&mut self, service: u8, sequence: u32, body: &[u8])
        requires { length body.now ≤ LARGEST_BODY }
        ensures { self.new ≡ record { service = service; sequence = Some sequence; body = body.now } }
    {
        self.begin(service, Some(sequence));
        self.push(body);
    }

    /// The number of the service.
    pub fn service(&self) -> u8
        ensures { result ≡ self.now.service }
    {
        self.service
    }

    /// The sequence number. `None` exactly for a command of version 1.
    pub fn sequence(&self) -> Option<u32>
        ensures { result ≡ self.now.sequence }
    {
        self.sequence
    }

    /// The body, of at most 65,600 bytes.
    pub fn body(&self) -> &[u8]
        ensures body { result.now ≡ self.now.body }
        ensures sendable { length self.now.body ≤ LARGEST_BODY }
    {
        &self.buffer[..self.used]
    }

    /// Makes it the command of service 0, without a sequence number and with an empty body. No byte of the old one stays.
    pub fn clear(&mut self)
        ensures { self.new ≡ record { service = 0; sequence = None; body = [] } }
    {
        self.begin(0, None);
    }
}

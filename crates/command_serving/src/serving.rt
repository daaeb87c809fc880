// A stream of commands, served to its end.
ghost use Rattle.std.specs.Prelude.{◌≡◌, ◌≢◌, ◌≤◌, ◌<◌, ◌+◌, [], List, IfOk, OnOk, OnErr, length, take, replicate};
ghost use Rattle.outside.specs.Contents.{Consumes, IsAtEnd};
ghost use Rattle.outside.specs.declared.traits.Sample.{Sample};
ghost use Rattle.outside.specs.Faults.{FaultCounted};
ghost use Rattle.outside.specs.Explained.{Explained};
ghost use Rattle.engine_core.specs.Calls.{IsStandard};
ghost use Rattle.module_frames.specs.Fragments.{new_fragment};
ghost use Rattle.module_frames.specs.Replies.{IsCleared};
ghost use Rattle.state_model.specs.MachineState.{MachineState};
ghost use Rattle.state_model.specs.Represents.{Represents, IsRepresented};
ghost use Rattle.command_serving.specs.Decoding.{IsReady};
ghost use Rattle.command_serving.specs.FrameGrammar.{frame_grammar};
ghost use Rattle.command_serving.specs.Run.{ending_of};
ghost use Rattle.command_serving.specs.Chunks.{EndServed, EndWriteFailed};
ghost use Rattle.command_serving.specs.Serving.{Serves};
ghost use Rattle.command_serving.specs.Secrets.{KeepsSecrets};

use crate::answering::{ChunkEnd, serve_chunk};
use crate::codec::Codec;
use crate::dead_stack::wipe_dead_stack;
use engine_core::Engine;
use module_frames::{Frames, Reply};
use outside::{Failed, Noise, Sink, Source};
use state_model::Module;
use stream_calls::{STREAM_MAX, read_some};

/// How serving ended.
#[derive(Clone, Copy, Debug, PartialEq, Eq)]
pub enum Ended {
    /// The source ended at a frame's boundary, and each command was answered.
    End,
    /// The bytes show a fault at this offset in the whole stream: that of the wrong byte, or of the first byte
    /// of a length that is too large. The commands before it were answered.
    BadFrame(u64),
    /// The source ended inside a frame. The commands before it were answered.
    Truncated,
    /// The source failed. The commands that were whole were answered.
    ReadFault,
    /// The sink failed. A part of the replies was written.
    WriteFault,
    /// 2^40 bytes were taken. The commands that were whole were answered.
    Limit,
}

/// Makes bytes that were served zero, and the stack that serving them used: no command's bytes stay in memory while the next ones are waited
/// for.
pub fn wipe_served(chunk: &mut [u8])
    ensures { chunk.new ≡ replicate (length chunk.old) 0 }
{
    chunk.fill(wipe_dead_stack(chunk.len()));
}

// How a stream without a fault ends, with these bytes held.
fn end_of<C: Codec>(codec: &C) -> Ended
    requires { IsReady C.grammar (C.holds codec.now) }
    ensures { result ≡ ending_of C.grammar (C.holds codec.now).start (C.holds codec.now).bytes }
{
    if codec.is_at_boundary() {
        Ended::End
    } else {
        Ended::Truncated
    }
}

// Serves what is held where the source has ended: it is read with the bytes that the end stands for.
fn serve_end<E: Engine, N: Noise, K: Sink, C: Codec>(
    module: &mut Module<E>,
    noise: &mut N,
    replies: &mut K,
    codec: &mut C,
    reply: &mut Reply,
) -> Ended
    requires ready { IsReady C.grammar (C.holds codec.old) }
    requires short { (C.holds codec.old).start + length (C.holds codec.old).bytes ≤ STREAM_MAX }
    ensures ended { result ≢ Ended.WriteFault → Explained (N.left noise.old) (N.left noise.new) (EndServed C.grammar E.calls
        (record { view = «module».old; gained = K.gained replies.old }) (C.holds codec.old) result (record { view = «module».new; gained = K.gained replies.new })) }
    ensures write_fault { result ≡ Ended.WriteFault → Explained (N.left noise.old) (N.left noise.new) (EndWriteFailed C.grammar E.calls
        (record { view = «module».old; gained = K.gained replies.old }) (C.holds codec.old).bytes (record { view = «module».new; gained = K.gained replies.new })) }
    ensures no_read { result ≢ Ended.ReadFault }
    ensures fault_counted { result ≡ Ended.WriteFault → FaultCounted (K.faults replies.old) (K.faults replies.new) }
    ensures faults_unchanged { result ≢ Ended.WriteFault → K.faults replies.new ≡ K.faults replies.old }
{
    match serve_chunk(module, noise, replies, codec, reply, C::end_mark()) {
        ChunkEnd::All => end_of(codec),
        ChunkEnd::Fault(number) => Ended::BadFrame(number),
        ChunkEnd::WriteFault => Ended::WriteFault,
    }
}

/// Serves a stream of any grammar to its end: reads into the chunk, does each whole command in turn, writes its reply, and clears both. The
/// codec holds nothing and the chunk isn't empty. What it worked with is left as it is then. A fault is told as a bad frame with its number in
/// the stream; no more than 2^40 bytes are asked for, and none once those taken show a fault.
pub fn serve_stream<E: Engine, N: Noise, S: Source, K: Sink, C: Codec>(
    module: &mut Module<E>,
    noise: &mut N,
    commands: &mut S,
    replies: &mut K,
    codec: &mut C,
    reply: &mut Reply,
    chunk: &mut [u8],
) -> Ended
    requires new { C.holds codec.old ≡ new_fragment }
    requires chunk { 0 < length chunk.old }
    ensures served { Explained (N.left noise.old) (N.left noise.new) (λ events left. (s : MachineState E) → Represents «module».old s → Serves C.grammar E.calls result (length chunk.old) s «module».new
        (record { left = S.left commands.old; gained = K.gained replies.old })
        (record { left = S.left commands.new; gained = K.gained replies.new }) events left) }
    ensures read_fault { result ≡ Ended.ReadFault → FaultCounted (S.faults commands.old) (S.faults commands.new) }
    ensures reads_unchanged { result ≢ Ended.ReadFault → S.faults commands.new ≡ S.faults commands.old }
    ensures write_fault { result ≡ Ended.WriteFault → FaultCounted (K.faults replies.old) (K.faults replies.new) }
    ensures writes_unchanged { result ≢ Ended.WriteFault → K.faults replies.new ≡ K.faults replies.old }
{
    let mut taken: u64 = 0;
    while taken < STREAM_MAX {
        match read_some(commands, chunk, STREAM_MAX - taken) {
            Err(_) => return Ended::ReadFault,
            Ok(0) => return serve_end(module, noise, replies, codec, reply),
            Ok(count) => {
                match serve_chunk(module, noise, replies, codec, reply, &chunk[..count]) {
                    ChunkEnd::All => {}
                    ChunkEnd::Fault(number) => return Ended::BadFrame(number),
                    ChunkEnd::WriteFault => return Ended::WriteFault,
                }
                wipe_served(&mut chunk[..count]);
                taken += count as u64;
            }
        }
    }
    Ended::Limit
}

/// Serves a stream of commands to its end: reads into the chunk, does each whole command in turn, writes its reply, and clears
/// both. `frames` is new and the chunk isn't empty. As it returns, frames, reply and chunk are zero.
///
/// The noise is what the commands draw from. No more than 2^40 bytes are asked for, and none once those taken show a fault. Where a
/// call on the source or the sink failed, the answer is that object's.
pub fn serve<E: Engine, N: Noise, S: Source, K: Sink>(
    module: &mut Module<E>,
    noise: &mut N,
    commands: &mut S,
    replies: &mut K,
    frames: &mut Frames,
    reply: &mut Reply,
    chunk: &mut [u8],
) -> Ended
    requires new { frames.old ≡ new_fragment }
    requires chunk { 0 < length chunk.old }
    ensures served { (s : MachineState E) → Represents «module».old s → Explained (N.left noise.old) (N.left noise.new) (Serves frame_grammar E.calls result (length chunk.old) s «module».new
        (record { left = S.left commands.old; gained = K.gained replies.old })
        (record { left = S.left commands.new; gained = K.gained replies.new })) }

    // With an engine that answers as the standards say, each stream that differs from the bytes read in secrets alone would have run
    // alike, and got equal replies to each command that observes nothing tainted.
    ensures secrets { IsStandard E.calls → (s : MachineState E) → Represents «module».old s → Explained (N.left noise.old) (N.left noise.new) (KeepsSecrets frame_grammar E.calls result s
        (record { left = S.left commands.old; gained = K.gained replies.old })
        (record { left = S.left commands.new; gained = K.gained replies.new })) }

    // Each fault comes only where that object's count rose.
    ensures read_fault { result ≡ Ended.ReadFault → FaultCounted (S.faults commands.old) (S.faults commands.new) }
    ensures reads_unchanged { result ≢ Ended.ReadFault → S.faults commands.new ≡ S.faults commands.old }
    ensures write_fault { result ≡ Ended.WriteFault → FaultCounted (K.faults replies.old) (K.faults replies.new) }
    ensures writes_unchanged { result ≢ Ended.WriteFault → K.faults replies.new ≡ K.faults replies.old }

    ensures zero { (frames.new.bytes ≡ []) × IsCleared reply.new × (chunk.new ≡ replicate (length chunk.old) 0) }
{
    let ended = serve_stream(module, noise, commands, replies, frames, reply, chunk);
    frames.clear();
    reply.clear();
    wipe_served(chunk);
    ended
}

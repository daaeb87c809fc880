// Chunks of a stream, and the replies to the commands that they end.
ghost use Rattle.std.specs.Prelude.{◌≡◌, ◌≢◌, ◌≤◌, ◌+◌, ◌^◌, ℕ, List, [], ◌∷◌, OnOk, OnErr, length};
ghost use Rattle.outside.specs.Faults.{FaultCounted};
ghost use Rattle.outside.specs.Explained.{Explained};
ghost use Rattle.module_frames.specs.CommandFrames.{CommandFrame};
ghost use Rattle.module_frames.specs.Replies.{IsCleared};
ghost use Rattle.command_serving.specs.Decoding.{IsReady, cleared};
ghost use Rattle.command_serving.specs.Chunks.{CommandAnswered, AnswerCutOff, ChunkServed, ChunkDone, FaultShown, WriteFailed};

use crate::codec::{Codec, Decoded};
use engine_core::Engine;
use module_frames::Reply;
use outside::{Failed, Noise, Sink};
use state_model::Module;

/// Does the command that stands with the noise that there is, and writes its reply. Both are cleared then.
pub fn answer<E: Engine, N: Noise, K: Sink, C: Codec>(
    module: &mut Module<E>,
    noise: &mut N,
    replies: &mut K,
    codec: &mut C,
    reply: &mut Reply,
) -> Result<(), Failed>
    requires { (command : CommandFrame) × C.grammar.Encodes (C.holds codec.old).bytes (command ∷ []) }
    ensures whole { OnOk result (Explained (N.left noise.old) (N.left noise.new) (CommandAnswered C.grammar E.calls
        (record { view = «module».old; gained = K.gained replies.old }) (C.holds codec.old).bytes (record { view = «module».new; gained = K.gained replies.new }))) }
    ensures part { OnErr result (Explained (N.left noise.old) (N.left noise.new) (AnswerCutOff C.grammar E.calls
        (record { view = «module».old; gained = K.gained replies.old }) (C.holds codec.old).bytes (record { view = «module».new; gained = K.gained replies.new }))) }
    ensures forgotten { OnOk result (C.holds codec.new ≡ cleared C.grammar (C.holds codec.old)) }
    ensures cleared { OnOk result (IsCleared reply.new) }
    ensures fault_counted { OnErr result (FaultCounted (K.faults replies.old) (K.faults replies.new)) }
    ensures faults_unchanged { OnOk result (K.faults replies.new ≡ K.faults replies.old) }
{
    module.command(codec.command(), noise, reply);
    codec.write(reply, replies)?;
    codec.clear();
    reply.clear();
    Ok(())
}

/// What became of a chunk.
#[derive(Clone, Copy, Debug, PartialEq, Eq)]
pub enum ChunkEnd {
    /// All of it was served.
    All,
    /// The bytes show a fault, which has this number in the stream; the commands before it were answered.
    Fault(u64),
    /// A write failed.
    WriteFault,
}

/// Serves a chunk: does and answers each command that it ends. It isn't inlined, so that all that it leaves on the stack lies below the frame
/// of its caller.
#[inline(never)]
pub fn serve_chunk<E: Engine, N: Noise, K: Sink, C: Codec>(
    module: &mut Module<E>,
    noise: &mut N,
    replies: &mut K,
    codec: &mut C,
    reply: &mut Reply,
    chunk: &[u8],
) -> ChunkEnd
    requires ready { IsReady C.grammar (C.holds codec.old) }
    requires short { (C.holds codec.old).start + length (C.holds codec.old).bytes + length chunk.now ≤ 2 ^ 63 }
    ensures done { result ≡ ChunkEnd.All → ChunkDone C.grammar (C.holds codec.old) chunk.now (C.holds codec.new) }
    ensures all { result ≡ ChunkEnd.All → Explained (N.left noise.old) (N.left noise.new) (ChunkServed C.grammar E.calls
        (record { view = «module».old; gained = K.gained replies.old }) (C.holds codec.old).bytes chunk.now (C.holds codec.new).bytes (record { view = «module».new; gained = K.gained replies.new })) }
    ensures fault { (number : ℕ) → result ≡ ChunkEnd.Fault number → (start : ℕ) × (remainder : List ℕ) × FaultShown C.grammar (C.holds codec.old) chunk.now start remainder number
        × Explained (N.left noise.old) (N.left noise.new) (ChunkServed C.grammar E.calls
        (record { view = «module».old; gained = K.gained replies.old }) (C.holds codec.old).bytes chunk.now remainder (record { view = «module».new; gained = K.gained replies.new })) }
    ensures write_fault { result ≡ ChunkEnd.WriteFault → Explained (N.left noise.old) (N.left noise.new) (WriteFailed C.grammar E.calls
        (record { view = «module».old; gained = K.gained replies.old }) (C.holds codec.old).bytes chunk.now (record { view = «module».new; gained = K.gained replies.new })) }
    ensures fault_counted { result ≡ ChunkEnd.WriteFault → FaultCounted (K.faults replies.old) (K.faults replies.new) }
    ensures faults_unchanged { result ≢ ChunkEnd.WriteFault → K.faults replies.new ≡ K.faults replies.old }
{
    let mut done = 0;
    while done < chunk.len() {
        match codec.decode(&chunk[done..]) {
            Decoded::More => return ChunkEnd::All,
            Decoded::Fault(number) => return ChunkEnd::Fault(number),
            Decoded::Skipped(count) => done += count,
            Decoded::Command(count) => {
                match answer(module, noise, replies, codec, reply) {
                    Err(_) => return ChunkEnd::WriteFault,
                    Ok(_) => {}
                }
                done += count;
            }
        }
    }
    ChunkEnd::All
}

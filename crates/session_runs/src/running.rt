// A session's commands, one after the other, and the summary of their replies.
ghost use Rattle.std.specs.Prelude.{◌≡◌, ◌≤◌, [], List, OnOk, OnErr, length};
ghost use Rattle.outside.specs.Contents.{Appends};
ghost use Rattle.outside.specs.Explained.{Explained};
ghost use Rattle.outside.specs.Faults.{FaultCounted};
ghost use Rattle.module_frames.specs.ReplyFrames.{ReplyFrame};
ghost use Rattle.module_frames.specs.Replies.{IsCleared};
ghost use Rattle.session_commands.specs.SessionCommands.{cleared_command};
ghost use Rattle.stream_calls.specs.PartialWrites.{AppendsPart};
ghost use Rattle.session_runs.specs.Summaries.{summary};
ghost use Rattle.session_runs.specs.Tallies.{IsTallyOf};
ghost use Rattle.session_runs.specs.SessionRuns.{RunsSession, Answers};
ghost use Rattle.session_runs.specs.declared.limits.TheConstants.{LONGEST_SESSION};

use crate::summaries::write_summary;
use crate::tally::Tally;
use engine_core::Engine;
use module_frames::{Command, Reply};
use outside::{Failed, Noise, Sink};
use session_commands::Session;
use state_model::Module;
use stream_calls::write_all;

// Does each command of the session in turn, whatever it answers, and counts the replies.
fn count_replies<E: Engine, N: Noise>(
    module: &mut Module<E>,
    noise: &mut N,
    session: &mut Session,
    command: &mut Command,
    reply: &mut Reply,
) -> Tally
    requires { length session.old ≤ LONGEST_SESSION }
    ensures answered { (replies : List ReplyFrame) × IsTallyOf result replies
        × Explained (N.left noise.old) (N.left noise.new) (Answers E.calls session.old «module».old «module».new replies) }
    ensures over { session.new ≡ [] }
    ensures cleared { command.new ≡ cleared_command }
{
    let mut tally = Tally::new();
    while session.next(command) {
        module.command(command, noise, reply);
        tally.count(reply);
    }
    tally
}

/// Does each command of the session in turn, whatever it answers, and writes the summary of the replies in twenty lines: their number, that of each
/// status from 0 to 15, the bytes of payload, the module's state after the last command, and the SHA-256 of all reply frames joined. The session has at
/// most 4,294,967,306 commands, as each new one. Command and reply are cleared then. A fault comes only where the sink's count rose, after all
/// commands were done, and a part of the summary is written then.
pub fn run_session<E: Engine, N: Noise, K: Sink>(
    module: &mut Module<E>,
    noise: &mut N,
    session: &mut Session,
    command: &mut Command,
    reply: &mut Reply,
    out: &mut K,
) -> Result<(), Failed>
    requires { length session.old ≤ LONGEST_SESSION }
    ensures whole { OnOk result (Explained (N.left noise.old) (N.left noise.new) (RunsSession E.calls session.old «module».old «module».new
        (λ replies last. Appends (K.gained out.old) (summary replies last) (K.gained out.new)))) }
    ensures part { OnErr result (Explained (N.left noise.old) (N.left noise.new) (RunsSession E.calls session.old «module».old «module».new
        (λ replies last. AppendsPart (K.gained out.old) (summary replies last) (K.gained out.new)))) }
    ensures fault_counted { OnErr result (FaultCounted (K.faults out.old) (K.faults out.new)) }
    ensures faults_unchanged { OnOk result (K.faults out.new ≡ K.faults out.old) }
    ensures over { session.new ≡ [] }
    ensures cleared { (command.new ≡ cleared_command) × IsCleared reply.new }
{
    let tally = count_replies(module, noise, session, command, reply);
    // The summary takes the room of the replies' payloads, so that no memory is asked for.
    write_summary(tally, module.state(), &mut reply.payload);
    let written = write_all(out, reply.payload.bytes());
    reply.clear();
    written
}

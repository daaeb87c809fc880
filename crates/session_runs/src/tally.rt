// What is counted of the replies to a session's commands.
ghost use Rattle.std.specs.Prelude.{◌≡◌, ◌<◌, ◌+◌, ◌++◌, ◌==◌, if◌then◌else◌, ℕ, [], ◌∷◌, List, get_or, length};
ghost use Rattle.sha2.specs.Hashers.{Holds256};
ghost use Rattle.service_table.specs.Numbers.{status_number};
ghost use Rattle.module_frames.specs.ReplyFrames.{ReplyFrame, reply_encoding};
ghost use Rattle.module_frames.specs.Replies.{frame_of};
ghost use Rattle.session_runs.specs.declared.limits.TheConstants.{LONGEST_SESSION, STATUSES};

use crate::limits::STATUSES;
use module_frames::Reply;
use service_table::Status;
use sha2::{Digest, Sha256};

/// The counts of some replies, and a hasher that has taken their bytes.
#[derive(Drop)]
pub(crate) struct Tally {
    pub(crate) commands: u64,
    pub(crate) statuses: [u64; STATUSES],
    pub(crate) payload: u64,
    pub(crate) hasher: Sha256,
}

// Adds the bytes of a reply's frame to the message.
fn hash_reply(hasher: &mut Sha256, reply: &Reply)
    ensures { (message : List ℕ) → Holds256 hasher.old message → Holds256 hasher.new (message ++ reply_encoding (frame_of reply.now)) }
{
    let mut header = [0; 28];
    let length = reply.header(&mut header);
    hasher.update(&header[..length]);
    hasher.update(reply.payload.bytes());
}

// Counts a reply of this status where the summary has a line for it.
fn count_status(statuses: &mut [u64; STATUSES], status: Status)
    requires { (n : ℕ) → get_or statuses.old n 0 < LONGEST_SESSION }
    ensures { (n : ℕ) → n < STATUSES → get_or statuses.new n 0 ≡ get_or statuses.old n 0 + (if status_number status == n then 1 else 0) }
{
    let number = usize::from(status.number());
    if number < STATUSES {
        statuses[number] += 1;
    }
}

impl Tally {
    ghost use Rattle.session_runs.specs.Tallies.{IsTallyOf};

    /// No reply is counted.
    pub(crate) fn new() -> Tally
        ensures { IsTallyOf result [] }
    {
        Tally {
            commands: 0,
            statuses: [0; STATUSES],
            payload: 0,
            hasher: Sha256::new(),
        }
    }

    /// Counts a reply. Fewer than the longest session has commands are counted before.
    pub(crate) fn count(&mut self, reply: &Reply)
        requires { (replies : List ReplyFrame) × IsTallyOf self.old replies × (length replies < LONGEST_SESSION) }
        ensures { (replies : List ReplyFrame) → IsTallyOf self.old replies → IsTallyOf self.new (replies ++ frame_of reply.now ∷ []) }
    {
        self.commands += 1;
        count_status(&mut self.statuses, reply.status);
        self.payload += reply.payload.bytes().len() as u64;
        hash_reply(&mut self.hasher, reply);
    }
}

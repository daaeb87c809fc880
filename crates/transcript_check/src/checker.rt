// The walk through a transcript.
ghost use Rattle.std.specs.Prelude.{◌≡◌, ◌↔◌, true, IsTrue, if◌then◌else◌};
ghost use Rattle.service_table.specs.Services.{is_permitted};
ghost use Rattle.module_frames.specs.PublicState.{unpowered, no_block, sequence_block};
ghost use Rattle.module_frames.specs.Requests.{request_value, service_for, IsInRange};
ghost use Rattle.module_frames.specs.Sequencing.{is_in_order};
ghost use Rattle.module_frames.specs.LawfulSteps.{found_by, IsRefusedAtOnce, KeepsCode};
ghost use Rattle.transcript_check.specs.Counting.{IsCountable};
ghost use Rattle.transcript_check.specs.Effects.{AnswersAt, RepliesAt, Tells, LeadsAt};
ghost use Rattle.transcript_check.specs.Checking.{Answers};

use crate::beginning::{begin, found, is_in_order};
use crate::effects::{is_refusal_at_once, left_at};
use crate::reply_form::{has_block, has_payload, is_indicated};
use crate::request_facts::service_for;
use module_frames::{Command, PublicState, ReplyHead, Request};
use service_table::{Service, State, Status, may_answer};
use std::marker::Model;

// The public state after a request that is begun, where its reply keeps the rules; the reply tells its error code.
fn answered(request: &Request<'_>, found: PublicState, head: &ReplyHead) -> Option<PublicState>
    requires countable { IsCountable found }
    requires permitted { is_permitted (service_for (request_value request.now)) found.state ≡ true }
    requires in_range { IsInRange (request_value request.now) }
    ensures { AnswersAt (request_value request.now) found head.now result }
{
    let after = left_at(request, found, head.status, head.code)?;
    let lawful = may_answer(service_for(request), head.status)
        && !is_refusal_at_once(head.status)
        && has_payload(request, head)
        && is_indicated(request, head)
        && has_block(request, found, head);
    lawful.then_some(after)
}

// The block of a reply to a command that is refused at once: only one out of its order is told something.
fn refusal_block(before: PublicState, command: &Command) -> [u8; 12]
    ensures { result ≡ (if is_in_order command.now.sequence before.next_sequence then no_block else sequence_block before) }
{
    if is_in_order(command.sequence(), before.next_sequence) {
        [0; 12]
    } else {
        before.sequence_block()
    }
}

// Whether the reply is that to a command that is refused at once for this reason.
fn is_refused_at_once(
    reason: Status,
    before: PublicState,
    command: &Command,
    head: &ReplyHead,
) -> bool
    ensures { IsTrue result ↔ IsRefusedAtOnce reason before command.now head.now (found_by command.now before) }
{
    head.status == reason
        && head.length == 0
        && !head.approved
        && head.block == refusal_block(before, command)
}

// The public state after a command, as far as the reply's status, code, payload, indicator and block allow one.
fn after_reply(before: PublicState, command: &Command, head: &ReplyHead) -> Option<PublicState>
    requires { IsCountable before }
    ensures { RepliesAt before command.now head.now result }
{
    let found = found(before, command);
    match begin(before, command) {
        Ok(request) => answered(&request, found, head),
        Err(reason) => is_refused_at_once(reason, before, command, head).then_some(found),
    }
}

// Whether the error code is 0 exactly outside Error, and stays there until Reset.
fn keeps_code(before: PublicState, command: &Command, after: PublicState) -> bool
    ensures { IsTrue result ↔ KeepsCode before command.now after }
{
    let is_error = after.state == State::Error;
    let resets = command.service() == Service::Reset.number();
    (after.error_code == 0) != is_error
        && (before.state != State::Error || resets || after.error_code == before.error_code)
}

// Whether the reply is the command's, and tells this state and its error code.
fn tells(command: &Command, head: &ReplyHead, after: PublicState) -> bool
    ensures { IsTrue result ↔ Tells command.now head.now after }
{
    head.service == command.service()
        && head.sequence == command.sequence()
        && head.state == after.state
        && head.code == after.error_code
}

// Whether the reply tells this state and its error code, and that is a code that may follow.
fn is_told(before: PublicState, command: &Command, head: &ReplyHead, after: PublicState) -> bool
    ensures { IsTrue result ↔ (Tells command.now head.now after × KeepsCode before command.now after) }
{
    tells(command, head, after) && keeps_code(before, command, after)
}

// The public state to which a pair leads by a lawful step. `None` exactly where it is none.
fn next(before: PublicState, command: &Command, head: &ReplyHead) -> Option<PublicState>
    requires { IsCountable before }
    ensures { LeadsAt before (record { command = command.now; reply = head.now }) result }
{
    let after = after_reply(before, command, head)?;
    is_told(before, command, head, after).then_some(after)
}

/// A walk through a transcript: the public state to which the pairs so far lead. Contracts see that state, or that the walk ended at a pair
/// that isn't lawful.
#[derive(Clone, Copy)]
pub struct Checker {
    public: Option<PublicState>,
}

impl Model for Checker {
    ghost use Rattle.std.specs.Prelude.{Option, IfSome};
    ghost use Rattle.module_frames.specs.declared.public_state.PublicState.{PublicState};
    ghost use Rattle.transcript_check.specs.Counting.{IsCountable};

    ghost Value = { Option PublicState };

    ghost view = { λ a. a.public };

    ghost invariant = { λ a. IfSome a.public IsCountable };

    ghost inverse = { λ public. record { public = public } };
}

impl Checker {
    /// The walk at its beginning: without power, before any pair.
    pub fn new() -> Checker
        ensures { result ≡ Some unpowered }
    {
        Checker {
            public: Some(PublicState::unpowered()),
        }
    }

    /// Takes the next pair of the transcript, a command and the head of its reply. True exactly where it is a lawful step from where the walk
    /// is; the walk then goes on. After the first false the walk has ended, and it is false for good.
    pub fn step(&mut self, command: &Command, head: &ReplyHead) -> bool
        ensures { Answers self.old (record { command = command.now; reply = head.now }) result self.new }
    {
        let Some(before) = self.public else {
            return false;
        };
        self.public = next(before, command, head);
        self.public.is_some()
    }
}

// How a command begins: what it asks for, or why it is refused at once.
ghost use Rattle.std.specs.Prelude.{◌≡◌, true, MatchResult};
ghost use Rattle.service_table.specs.Services.{is_permitted};
ghost use Rattle.module_frames.specs.Requests.{request_value, service_for, IsInRange};
ghost use Rattle.module_frames.specs.Sequencing.{is_in_order};
ghost use Rattle.module_frames.specs.LawfulSteps.{begun, found_by};

use module_frames::{Command, PublicState, Request, read_request};
use service_table::{Status, permitted, service_of};

// Whether a command with this sequence number, or with none, comes in its order.
pub fn is_in_order(sequence: Option<u32>, expected: u32) -> bool
    ensures { result ≡ is_in_order sequence expected }
{
    match sequence {
        None => true,
        Some(number) => number == expected,
    }
}

/// What a command asks for in this public state, or the first reason to refuse it at once.
pub fn begin<'a>(before: PublicState, command: &'a Command) -> Result<Request<'a>, Status>
    ensures { MatchResult result
        (λ request. (begun before command.now ≡ Ok (request_value request)) × IsInRange (request_value request)
        × (is_permitted (service_for (request_value request)) before.state ≡ true))
        (λ reason. begun before command.now ≡ Err reason) }
{
    if !is_in_order(command.sequence(), before.next_sequence) {
        return Err(Status::OutOfOrder);
    }
    let Some(service) = service_of(command.service()) else {
        return Err(Status::UnknownService);
    };
    if !permitted(service, before.state) {
        return Err(Status::NotInState);
    }
    match read_request(service, command.body()) {
        Some(request) => Ok(request),
        None => Err(Status::BadBody),
    }
}

/// What a command finds: its sequence number is taken, where it comes in its order.
pub fn found(before: PublicState, command: &Command) -> PublicState
    ensures { result ≡ found_by command.now before }
{
    match command.sequence() {
        None => before,
        Some(number) => {
            if number == before.next_sequence {
                before.sequence_taken()
            } else {
                before
            }
        }
    }
}

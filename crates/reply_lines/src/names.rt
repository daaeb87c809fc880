// The names of statuses and states in reply lines.
ghost use Rattle.std.specs.Prelude.{◌≡◌, ◌≤◌, length};
ghost use Rattle.reply_lines.specs.ReplyLines.{status_name, state_name};

use service_table::{State, Status};

/// The name of a status, of at most 14 bytes.
pub fn status_name(status: Status) -> &'static [u8]
    ensures name { result.now ≡ status_name status }
    ensures short { length result.now ≤ 14 }
{
    match status {
        Status::Ok => b"Ok",
        Status::UnknownService => b"UnknownService",
        Status::NotInState => b"NotInState",
        Status::BadBody => b"BadBody",
        Status::TestFailed => b"TestFailed",
        Status::NoiseFault => b"NoiseFault",
        Status::EmptySlot => b"EmptySlot",
        Status::WrongKind => b"WrongKind",
        Status::WrongDomain => b"WrongDomain",
        Status::Spent => b"Spent",
        Status::OccupiedSlot => b"OccupiedSlot",
        Status::NotExportable => b"NotExportable",
        Status::BadLength => b"BadLength",
        Status::CheckFailed => b"CheckFailed",
        Status::AuthFailed => b"AuthFailed",
        Status::UnwrapFailed => b"UnwrapFailed",
        Status::OutOfOrder => b"OutOfOrder",
    }
}

/// The name of a state, of at most 8 bytes.
pub fn state_name(state: State) -> &'static [u8]
    ensures name { result.now ≡ state_name state }
    ensures short { length result.now ≤ 8 }
{
    match state {
        State::Off => b"Off",
        State::Init => b"Init",
        State::SelfTest => b"SelfTest",
        State::Approved => b"Approved",
        State::Officer => b"Officer",
        State::User => b"User",
        State::Entry => b"Entry",
        State::Error => b"Error",
    }
}

// What a reply says of its command.
ghost use Rattle.std.specs.Prelude.{◌≡◌};
ghost use Rattle.service_table.specs.Numbers.{status_number, status_numbered};

/// The status of a reply: done, or the first reason of refusal. The table is this project's own.
#[derive(Clone, Copy, Debug, PartialEq, Eq)]
pub enum Status {
    /// The service was done.
    Ok,
    /// The number is that of no service.
    UnknownService,
    /// The service isn't permitted in the state that the command found.
    NotInState,
    /// The body isn't of the service's form.
    BadBody,
    /// A self-test's answer was wrong; the state is Error.
    TestFailed,
    /// The noise ended, failed or didn't pass its health tests; the state is Error.
    NoiseFault,
    /// The slot is empty.
    EmptySlot,
    /// The slot holds a parameter of another kind.
    WrongKind,
    /// The slot's parameter is approved, and the service isn't so used.
    WrongDomain,
    /// The slot's parameter has no use left.
    Spent,
    /// The slot is full.
    OccupiedSlot,
    /// The slot's parameter may not leave the module.
    NotExportable,
    /// The bytes are more than the parameter has, or fewer at its commit.
    BadLength,
    /// The check value isn't that of the parameter.
    CheckFailed,
    /// The MAC isn't that of the text.
    AuthFailed,
    /// The wrapped bytes unwrap to nothing (SP 800-38F, 6.2 and 6.3).
    UnwrapFailed,
    /// The command's sequence number isn't the expected one.
    OutOfOrder,
}

impl Status {
    /// The number that a reply gives the status.
    pub fn number(self) -> u8
        ensures { result ≡ status_number self }
    {
        match self {
            Status::Ok => 0,
            Status::UnknownService => 1,
            Status::NotInState => 2,
            Status::BadBody => 3,
            Status::TestFailed => 4,
            Status::NoiseFault => 5,
            Status::EmptySlot => 6,
            Status::WrongKind => 7,
            Status::WrongDomain => 8,
            Status::Spent => 9,
            Status::OccupiedSlot => 10,
            Status::NotExportable => 11,
            Status::BadLength => 12,
            Status::CheckFailed => 13,
            Status::AuthFailed => 14,
            Status::UnwrapFailed => 15,
            Status::OutOfOrder => 16,
        }
    }

    /// The status with this number. `None` exactly where no status has it.
    pub fn from_number(number: u8) -> Option<Status>
        ensures { result ≡ status_numbered number }
    {
        match number {
            0 => Some(Status::Ok),
            1 => Some(Status::UnknownService),
            2 => Some(Status::NotInState),
            3 => Some(Status::BadBody),
            4 => Some(Status::TestFailed),
            5 => Some(Status::NoiseFault),
            6 => Some(Status::EmptySlot),
            7 => Some(Status::WrongKind),
            8 => Some(Status::WrongDomain),
            9 => Some(Status::Spent),
            10 => Some(Status::OccupiedSlot),
            11 => Some(Status::NotExportable),
            12 => Some(Status::BadLength),
            13 => Some(Status::CheckFailed),
            14 => Some(Status::AuthFailed),
            15 => Some(Status::UnwrapFailed),
            16 => Some(Status::OutOfOrder),
            _ => None,
        }
    }
}

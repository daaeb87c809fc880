// Why the module is in the state Error.
ghost use Rattle.std.specs.Prelude.{◌≡◌};
ghost use Rattle.service_table.specs.Failures.{failure_code};

/// What failed, where the module is in the state Error. The table is this project's own.
#[derive(Clone, Copy, Debug, PartialEq, Eq)]
pub enum Failure {
    /// A known-answer test, by its number.
    KnownAnswer(u8),
    /// The image's MAC isn't its digest.
    Integrity,
    /// The noise ended.
    NoiseEnded,
    /// The noise failed.
    NoiseFailed,
    /// The noise didn't pass the repetition count test.
    Repetition,
    /// The noise didn't pass the adaptive proportion test.
    Proportion,
}

impl Failure {
    /// The error code by which a reply tells it.
    pub fn code(self) -> u16
        ensures { result ≡ failure_code self }
    {
        match self {
            Failure::KnownAnswer(test) => 0x0100 + u16::from(test),
            Failure::Integrity => 0x0200,
            Failure::NoiseEnded => 0x0300,
            Failure::NoiseFailed => 0x0400,
            Failure::Repetition => 0x0500,
            Failure::Proportion => 0x0600,
        }
    }
}

// The states of the module.
ghost use Rattle.std.specs.Prelude.{◌≡◌};
ghost use Rattle.service_table.specs.Numbers.{state_number, state_numbered};

/// The states of the finite state model, which is this project's own (FIPS 140-3 asks for one; ISO/IEC 19790:2012, 7.11.4).
#[derive(Clone, Copy, Debug, PartialEq, Eq)]
pub enum State {
    /// Not powered.
    Off,
    /// Powered, not tested.
    Init,
    /// Self-tests are due, one for each `TestStep`.
    SelfTest,
    /// The tests passed; no role is chosen.
    Approved,
    /// The crypto officer's role.
    Officer,
    /// The user's role.
    User,
    /// A parameter is being entered.
    Entry,
    /// A test or the noise failed; only `Reset` leads out.
    Error,
}

impl State {
    /// The number that a frame gives the state.
    pub fn number(self) -> u8
        ensures { result ≡ state_number self }
    {
        match self {
            State::Off => 0,
            State::Init => 1,
            State::SelfTest => 2,
            State::Approved => 3,
            State::Officer => 4,
            State::User => 5,
            State::Entry => 6,
            State::Error => 7,
        }
    }

    /// The state with this number. `None` exactly where no state has it.
    pub fn from_number(number: u8) -> Option<State>
        ensures { result ≡ state_numbered number }
    {
        match number {
            0 => Some(State::Off),
            1 => Some(State::Init),
            2 => Some(State::SelfTest),
            3 => Some(State::Approved),
            4 => Some(State::Officer),
            5 => Some(State::User),
            6 => Some(State::Entry),
            7 => Some(State::Error),
            _ => None,
        }
    }
}

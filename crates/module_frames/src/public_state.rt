// The part of the module's state that everyone may see, and what the services make of it.
ghost use Rattle.std.specs.Prelude.{◌≡◌, ◌<◌, ◌≤◌};
ghost use Rattle.module_frames.specs.PublicEffects.{return_from, role_state};

use service_table::{Failure, State};

/// The part of the module's state that everyone may see. No key ever reaches it.
#[derive(Clone, Copy, Debug, PartialEq, Eq)]
pub struct PublicState {
    pub state: State,
    /// The state to which self-tests return; Off where none are due.
    pub return_state: State,
    /// How many of the three self-tests were done since they are due, 0 to 2; 0 where none are due.
    pub tests_done: u8,
    /// After so many uses of cryptographic services tests are due again; 0 where they never are.
    pub period: u32,
    /// The uses since the last tests; with period 0 none is counted.
    pub uses_since_tests: u32,
    /// What failed, in the state Error; 0 in every other.
    pub error_code: u16,
    /// The sequence number that the next numbered command is expected to have.
    pub next_sequence: u32,
}

// Where self-tests return that were asked for in this state.
fn return_from(state: State) -> State
    ensures { result ≡ return_from state }
{
    match state {
        State::Init => State::Approved,
        State::Off
        | State::SelfTest
        | State::Approved
        | State::Officer
        | State::User
        | State::Entry
        | State::Error => state,
    }
}

// The state of a role: none, the crypto officer's, the user's.
fn role_state(role: u8) -> State
    ensures { result ≡ role_state role }
{
    match role {
        0 => State::Approved,
        1 => State::Officer,
        _ => State::User,
    }
}

impl PublicState {
    ghost use Rattle.module_frames.specs.PublicState.{unpowered, status_block, sequence_block};
    ghost use Rattle.module_frames.specs.PublicEffects.{sequence_taken, powered_on, tests_requested, test_done, has_failed, role_selected, was_reset, entry_begun, entry_ended, use_counted, is_period_over, sent_to_tests};

    /// That of a module without power: Off, the sequence number 1 expected, and all else zero.
    pub fn unpowered() -> PublicState
        ensures { result ≡ unpowered }
    {
        PublicState {
            state: State::Off,
            return_state: State::Off,
            tests_done: 0,
            period: 0,
            uses_since_tests: 0,
            error_code: 0,
            next_sequence: 1,
        }
    }

    /// After a numbered command that came in its order: the next number is expected, and 0 after the last one of 32 bits.
    pub fn sequence_taken(self) -> PublicState
        ensures { result ≡ sequence_taken self }
    {
        PublicState {
            next_sequence: self.next_sequence.wrapping_add(1),
            ..self
        }
    }

    /// After PowerOn with this period.
    pub fn powered_on(self, period: u32) -> PublicState
        ensures { result ≡ powered_on period self }
    {
        PublicState {
            state: State::Init,
            period,
            uses_since_tests: 0,
            ..self
        }
    }

    /// After RequestTests: the tests are due from the first one on.
    pub fn tests_requested(self) -> PublicState
        ensures { result ≡ tests_requested self }
    {
        PublicState {
            state: State::SelfTest,
            return_state: return_from(self.state),
            tests_done: 0,
            uses_since_tests: 0,
            ..self
        }
    }

    /// After one of the three tests; after the last one it is back where tests return.
    pub fn test_done(self) -> PublicState
        ensures { result ≡ test_done self }
    {
        if self.tests_done < 2 {
            return PublicState {
                tests_done: self.tests_done + 1,
                ..self
            };
        }
        PublicState {
            state: self.return_state,
            return_state: State::Off,
            tests_done: 0,
            ..self
        }
    }

    /// After a failure: Error, with the code of what failed. The period and the uses counted stay.
    pub fn has_failed(self, reason: Failure) -> PublicState
        ensures { result ≡ has_failed reason self }
    {
        PublicState {
            state: State::Error,
            return_state: State::Off,
            tests_done: 0,
            error_code: reason.code(),
            ..self
        }
    }

    /// After SelectRole: no role (0), the crypto officer's (1), the user's (2).
    pub fn role_selected(self, role: u8) -> PublicState
        ensures { result ≡ role_selected role self }
    {
        PublicState {
            state: role_state(role),
            ..self
        }
    }

    /// After Reset. The period and the expected sequence number stay.
    pub fn was_reset(self) -> PublicState
        ensures { result ≡ was_reset self }
    {
        PublicState {
            state: State::Init,
            return_state: State::Off,
            tests_done: 0,
            uses_since_tests: 0,
            error_code: 0,
            ..self
        }
    }

    /// After EntryBegin.
    pub fn entry_begun(self) -> PublicState
        ensures { result ≡ entry_begun self }
    {
        PublicState {
            state: State::Entry,
            ..self
        }
    }

    /// After EntryCommit, whatever it answered, and after EntryAbort.
    pub fn entry_ended(self) -> PublicState
        ensures { result ≡ entry_ended self }
    {
        PublicState {
            state: State::Officer,
            ..self
        }
    }

    /// With one more use of a cryptographic service counted, where uses are counted.
    pub fn use_counted(self) -> PublicState
        requires period { self.period ≤ 1000000 }
        requires counting { 0 < self.period → self.uses_since_tests < self.period }
        ensures { result ≡ use_counted self }
    {
        if self.period == 0 {
            return self;
        }
        PublicState {
            uses_since_tests: self.uses_since_tests + 1,
            ..self
        }
    }

    /// Whether the uses of a period are all made, and nothing failed.
    pub fn is_period_over(self) -> bool
        ensures { result ≡ is_period_over self }
    {
        self.period > 0 && self.uses_since_tests == self.period && self.state != State::Error
    }

    /// At the end of a period: tests are due, and lead back to where it is.
    pub fn sent_to_tests(self) -> PublicState
        ensures { result ≡ sent_to_tests self }
    {
        PublicState {
            state: State::SelfTest,
            return_state: self.state,
            tests_done: 0,
            uses_since_tests: 0,
            ..self
        }
    }

    /// The status block that ShowStatus tells, with the tests that passed.
    pub fn status_block(self, tests_passed: u16) -> [u8; 12]
        ensures { result ≡ status_block self tests_passed }
    {
        let tests = tests_passed.to_be_bytes();
        let period = self.period.to_be_bytes();
        let uses = self.uses_since_tests.to_be_bytes();
        [
            self.return_state.number(),
            self.tests_done,
            tests[0],
            tests[1],
            period[0],
            period[1],
            period[2],
            period[3],
            uses[0],
            uses[1],
            uses[2],
            uses[3],
        ]
    }

    /// The status block that tells the expected sequence number.
    pub fn sequence_block(self) -> [u8; 12]
        ensures { result ≡ sequence_block self }
    {
        let number = self.next_sequence.to_be_bytes();
        [
            number[0], number[1], number[2], number[3], 0, 0, 0, 0, 0, 0, 0, 0,
        ]
    }
}

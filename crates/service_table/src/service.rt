// The services: their numbers, and the states in which each is permitted.
ghost use Rattle.std.specs.Prelude.{◌≡◌};
ghost use Rattle.service_table.specs.Numbers.{service_number, service_numbered};
ghost use Rattle.service_table.specs.Services.{is_permitted, unwrapping_service, wrapping_service};

use crate::State;

/// The services of the module. Which there are, and where each is permitted, is this project's own table (FIPS 140-3 asks for one;
/// ISO/IEC 19790:2012, 7.4.3).
#[derive(Clone, Copy, Debug, PartialEq, Eq)]
pub enum Service {
    /// From Off to Init; sets the period.
    PowerOn,
    /// One of the self-tests that are due.
    TestStep,
    /// Asks for the self-tests.
    RequestTests,
    /// Shows the public state.
    ShowStatus,
    /// Shows the module's name and version.
    ShowVersion,
    /// Takes a role, or none.
    SelectRole,
    /// Back to Init; all slots are zero then.
    Reset,
    /// Begins the entry of a parameter.
    EntryBegin,
    /// Adds bytes to the parameter that is entered.
    EntryBytes,
    /// Ends the entry, and fills the slot with it where it is whole and checks.
    EntryCommit,
    /// Gives the entry up.
    EntryAbort,
    /// Makes a slot zero.
    Zeroise,
    /// Makes all slots zero.
    ZeroiseAll,
    /// Shows what a slot holds, but for its bytes.
    ShowSlot,
    /// Makes a slot and all that was made from it zero.
    ZeroiseTree,
    /// A digest (FIPS 180-4).
    Hash,
    /// A MAC under a slot's key (FIPS 198-1).
    Mac,
    /// Whether a MAC under a slot's key is right.
    MacVerify,
    /// A text sealed under a slot's key, with an IV of the module's own (SP 800-38D, 7.1 and 8.2.2).
    Seal,
    /// A text sealed under a slot's key, with the IV that the command gives (SP 800-38D, 7.1).
    SealIv,
    /// A sealed text opened under a slot's key, where its tag is right (SP 800-38D, 7.2).
    Open,
    /// A slot's bytes wrapped under another's key (SP 800-38F, 6.2).
    Wrap,
    /// Wrapped bytes unwrapped into a slot (SP 800-38F, 6.2).
    Unwrap,
    /// A slot's bytes padded and wrapped under another's key (SP 800-38F, 6.3).
    WrapPad,
    /// Bytes that were padded and wrapped, unwrapped into a slot (SP 800-38F, 6.3).
    UnwrapPad,
    /// A key derived from a slot's into another (SP 800-108r1, 4.1).
    Derive,
    /// Random bytes (SP 800-90A, 9.3).
    Random,
    /// A random key into a slot (SP 800-133, 6.1).
    Generate,
    /// Fresh entropy into the generator (SP 800-90A, 9.2).
    Reseed,
}

impl Service {
    /// The service that wraps a key, with padding or without (SP 800-38F, 6.3 and 6.2).
    pub fn wrapping(pad: bool) -> Service
        ensures { result ≡ wrapping_service pad }
    {
        if pad { Service::WrapPad } else { Service::Wrap }
    }

    /// The service that unwraps what `wrapping(pad)` wrapped.
    pub fn unwrapping(pad: bool) -> Service
        ensures { result ≡ unwrapping_service pad }
    {
        if pad {
            Service::UnwrapPad
        } else {
            Service::Unwrap
        }
    }

    /// The number by which a command names the service.
    pub fn number(self) -> u8
        ensures { result ≡ service_number self }
    {
        match self {
            Service::PowerOn => 0x01,
            Service::TestStep => 0x02,
            Service::RequestTests => 0x03,
            Service::ShowStatus => 0x04,
            Service::ShowVersion => 0x05,
            Service::SelectRole => 0x06,
            Service::Reset => 0x07,
            Service::EntryBegin => 0x08,
            Service::EntryBytes => 0x09,
            Service::EntryCommit => 0x0a,
            Service::EntryAbort => 0x0b,
            Service::Zeroise => 0x0c,
            Service::ZeroiseAll => 0x0d,
            Service::ShowSlot => 0x0e,
            Service::ZeroiseTree => 0x0f,
            Service::Hash => 0x10,
            Service::Mac => 0x11,
            Service::MacVerify => 0x12,
            Service::Seal => 0x13,
            Service::SealIv => 0x14,
            Service::Open => 0x15,
            Service::Wrap => 0x16,
            Service::Unwrap => 0x17,
            Service::WrapPad => 0x18,
            Service::UnwrapPad => 0x19,
            Service::Derive => 0x1a,
            Service::Random => 0x1b,
            Service::Generate => 0x1c,
            Service::Reseed => 0x1d,
        }
    }
}

/// The service with this number. `None` exactly where no service has it.
pub fn service_of(number: u8) -> Option<Service>
    ensures { result ≡ service_numbered number }
{
    match number {
        0x01 => Some(Service::PowerOn),
        0x02 => Some(Service::TestStep),
        0x03 => Some(Service::RequestTests),
        0x04 => Some(Service::ShowStatus),
        0x05 => Some(Service::ShowVersion),
        0x06 => Some(Service::SelectRole),
        0x07 => Some(Service::Reset),
        0x08 => Some(Service::EntryBegin),
        0x09 => Some(Service::EntryBytes),
        0x0a => Some(Service::EntryCommit),
        0x0b => Some(Service::EntryAbort),
        0x0c => Some(Service::Zeroise),
        0x0d => Some(Service::ZeroiseAll),
        0x0e => Some(Service::ShowSlot),
        0x0f => Some(Service::ZeroiseTree),
        0x10 => Some(Service::Hash),
        0x11 => Some(Service::Mac),
        0x12 => Some(Service::MacVerify),
        0x13 => Some(Service::Seal),
        0x14 => Some(Service::SealIv),
        0x15 => Some(Service::Open),
        0x16 => Some(Service::Wrap),
        0x17 => Some(Service::Unwrap),
        0x18 => Some(Service::WrapPad),
        0x19 => Some(Service::UnwrapPad),
        0x1a => Some(Service::Derive),
        0x1b => Some(Service::Random),
        0x1c => Some(Service::Generate),
        0x1d => Some(Service::Reseed),
        _ => None,
    }
}

/// Whether a command for the service is permitted in this state.
pub fn permitted(service: Service, state: State) -> bool
    ensures { result ≡ is_permitted service state }
{
    match service {
        Service::PowerOn => matches!(&state, State::Off),
        Service::TestStep => matches!(&state, State::SelfTest),
        Service::RequestTests => {
            matches!(
                &state,
                State::Init | State::Approved | State::Officer | State::User
            )
        }
        Service::ShowStatus | Service::ShowVersion => true,
        Service::SelectRole => matches!(&state, State::Approved | State::Officer | State::User),
        Service::Reset => !matches!(&state, State::Off),
        Service::EntryBytes | Service::EntryCommit | Service::EntryAbort => {
            matches!(&state, State::Entry)
        }
        Service::EntryBegin
        | Service::Zeroise
        | Service::ZeroiseAll
        | Service::ZeroiseTree
        | Service::Wrap
        | Service::Unwrap
        | Service::WrapPad
        | Service::UnwrapPad
        | Service::Generate
        | Service::Reseed => matches!(&state, State::Officer),
        Service::ShowSlot | Service::Hash | Service::Derive | Service::Random => {
            matches!(&state, State::Officer | State::User)
        }
        Service::Mac | Service::MacVerify | Service::Seal | Service::SealIv | Service::Open => {
            matches!(&state, State::User)
        }
    }
}

// What the body of a command asks for.
ghost use Rattle.std.specs.Prelude.{◌≡◌, IfSome};
ghost use Rattle.std.specs.Option.{option_map};
ghost use Rattle.module_frames.specs.Requests.{request_value, request_of, service_for, IsInRange};

use crate::bodies::{
    read_commit, read_entry_begin, read_hash, read_mac, read_mac_verify, read_piece, read_power_on,
    read_select_role, read_slot,
};
use crate::derive_body::read_derive;
use crate::generator_bodies::{read_generate, read_random, read_reseed};
use crate::sealing_bodies::{read_open, read_seal, read_seal_iv};
use crate::wrapping_bodies::{read_unwrap, read_wrap};
use bits_core::{Alg, Header, Kind, SlotId};
use service_table::Service;

/// A command whose body was read. Its bytes may be those of a parameter, so it isn't printed or compared.
#[derive(Clone, Copy)]
pub enum Request<'a> {
    /// Power on, with tests again after so many uses, or with 0 never.
    PowerOn {
        period: u32,
    },
    TestStep,
    RequestTests,
    ShowStatus,
    ShowVersion,
    /// Take no role (0), the crypto officer's (1) or the user's (2).
    SelectRole {
        role: u8,
    },
    Reset,
    /// Enter a parameter of this length for a slot.
    EntryBegin {
        slot: SlotId,
        header: Header,
        length: usize,
    },
    /// The next bytes of the parameter.
    EntryBytes {
        piece: &'a [u8],
    },
    /// Fill the slot with the parameter, where this is its check value.
    EntryCommit {
        check: &'a [u8],
    },
    EntryAbort,
    Zeroise {
        slot: SlotId,
    },
    ZeroiseAll,
    ShowSlot {
        slot: SlotId,
    },
    /// Make the slot zero, and all that was made from its parameter.
    ZeroiseTree {
        slot: SlotId,
    },
    Hash {
        alg: Alg,
        text: &'a [u8],
    },
    /// The front of the text's MAC, of this length.
    Mac {
        slot: SlotId,
        alg: Alg,
        length: usize,
        text: &'a [u8],
    },
    /// Whether the tag is the front of the text's MAC.
    MacVerify {
        slot: SlotId,
        alg: Alg,
        tag: &'a [u8],
        text: &'a [u8],
    },
    /// Encrypt the text under an IV that the module draws, with a tag of this length.
    Seal {
        slot: SlotId,
        length: usize,
        aad: &'a [u8],
        text: &'a [u8],
    },
    /// Encrypt the text under the IV that came, with a tag of this length.
    SealIv {
        slot: SlotId,
        length: usize,
        iv: &'a [u8],
        aad: &'a [u8],
        text: &'a [u8],
    },
    /// Decrypt the text, where the tag is its own.
    Open {
        slot: SlotId,
        iv: &'a [u8],
        aad: &'a [u8],
        text: &'a [u8],
        tag: &'a [u8],
    },
    /// The second slot's parameter, wrapped.
    Wrap {
        kek: SlotId,
        second: SlotId,
    },
    /// Fill the target with what is unwrapped.
    Unwrap {
        kek: SlotId,
        target: SlotId,
        kind: Kind,
        export: bool,
        uses: u32,
        wrapped: &'a [u8],
    },
    /// The second slot's parameter, wrapped with padding.
    WrapPad {
        kek: SlotId,
        second: SlotId,
    },
    /// Fill the target with what is unwrapped, whose padding is taken off.
    UnwrapPad {
        kek: SlotId,
        target: SlotId,
        kind: Kind,
        export: bool,
        uses: u32,
        wrapped: &'a [u8],
    },
    /// Fill the target with bytes of this length that are derived from the source's parameter.
    Derive {
        source: SlotId,
        target: SlotId,
        kind: Kind,
        export: bool,
        uses: u32,
        length: usize,
        label: &'a [u8],
        context: &'a [u8],
    },
    /// So many random bytes.
    Random {
        length: usize,
        additional: &'a [u8],
    },
    /// Fill the target with so many random bytes.
    Generate {
        target: SlotId,
        header: Header,
        length: usize,
    },
    /// Mix fresh entropy into the random bit generator.
    Reseed {
        additional: &'a [u8],
    },
}

/// The request that the body encodes for the service. `None` exactly where the body isn't of the service's form. Slots are at
/// most 15, flags 0 or 1, uses four bytes and at least 1, and every other field is a byte where nothing else is said:
///
/// - `PowerOn`: a number of four bytes, at most 1,000,000. `SelectRole`: a byte of at most 2.
/// - `EntryBegin` and `Generate`: slot, kind, domain, export flag, uses and a length that fits kind and domain.
/// - `EntryBytes`: 1 to 64 bytes. `EntryCommit`: 8 bytes. `Zeroise`, `ZeroiseTree` and `ShowSlot`: a slot.
/// - `Hash`: algorithm, text. `Mac`: slot, algorithm, the MAC's length (1 to the hash's size), text. `MacVerify`: the
///   same with the MAC in front of the text.
/// - `Seal`: slot, the tag's length (12 to 16), the AAD's length (four bytes), AAD, text. `SealIv`: slot, the tag's length, the
///   IV's length (1 to 255), the AAD's length (four bytes), IV, AAD, text. `Open`: the same with the tag behind the text. The whole has
///   at most 65,600 bytes.
/// - `Wrap` and `WrapPad`: two slots, which differ, that of the key-encryption key first.
/// - `Unwrap` and `UnwrapPad`: the slot of the key-encryption key, another slot, kind, export flag, uses, and the wrapping: a
///   multiple of 8 bytes up to 72, from 24 and 8 more than a length that fits the kind, or with padding from 16.
/// - `Derive`: the slot of the derivation key, another slot, kind, export flag, uses, a length that fits the kind in the approved
///   domain, the label's length, label, and a context of at most 255 bytes.
/// - `Random`: a length of four bytes, 1 to 65,536, and at most 256 bytes of additional input. `Reseed`: these alone.
/// - No byte for the others.
pub fn read_request<'a>(service: Service, body: &'a [u8]) -> Option<Request<'a>>
    ensures read { option_map request_value result ≡ request_of service body.now }
    ensures in_range { IfSome result (λ request. IsInRange (request_value request)) }
    ensures of_service { IfSome result (λ request. service_for (request_value request) ≡ service) }
{
    match service {
        Service::PowerOn => read_power_on(body),
        Service::TestStep => body.is_empty().then_some(Request::TestStep),
        Service::RequestTests => body.is_empty().then_some(Request::RequestTests),
        Service::ShowStatus => body.is_empty().then_some(Request::ShowStatus),
        Service::ShowVersion => body.is_empty().then_some(Request::ShowVersion),
        Service::SelectRole => read_select_role(body),
        Service::Reset => body.is_empty().then_some(Request::Reset),
        Service::EntryBegin => read_entry_begin(body),
        Service::EntryBytes => read_piece(body),
        Service::EntryCommit => read_commit(body),
        Service::EntryAbort => body.is_empty().then_some(Request::EntryAbort),
        Service::Zeroise => Some(Request::Zeroise {
            slot: read_slot(body)?,
        }),
        Service::ZeroiseAll => body.is_empty().then_some(Request::ZeroiseAll),
        Service::ShowSlot => Some(Request::ShowSlot {
            slot: read_slot(body)?,
        }),
        Service::ZeroiseTree => Some(Request::ZeroiseTree {
            slot: read_slot(body)?,
        }),
        Service::Hash => read_hash(body),
        Service::Mac => read_mac(body),
        Service::MacVerify => read_mac_verify(body),
        Service::Seal => read_seal(body),
        Service::SealIv => read_seal_iv(body),
        Service::Open => read_open(body),
        Service::Wrap => read_wrap(false, body),
        Service::Unwrap => read_unwrap(false, body),
        Service::WrapPad => read_wrap(true, body),
        Service::UnwrapPad => read_unwrap(true, body),
        Service::Derive => read_derive(body),
        Service::Random => read_random(body),
        Service::Generate => read_generate(body),
        Service::Reseed => read_reseed(body),
    }
}

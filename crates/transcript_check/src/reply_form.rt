// What a reply tells besides state and error code: the payload's length, the indicator and the block.
ghost use Rattle.std.specs.Prelude.{◌≡◌, ◌↔◌, ℕ, IsTrue, take, drop};
ghost use Rattle.std.specs.Int.{to_be_bytes, w16, w32};
ghost use Rattle.module_frames.specs.Requests.{CryptographicRequest, Cryptographic, request_value, IsInRange};
ghost use Rattle.module_frames.specs.WrappingBodies.{is_wrapped_length};
ghost use Rattle.module_frames.specs.PublicState.{status_block};
ghost use Rattle.module_frames.specs.LawfulSteps.{IsPayloadLength, HasPayload, is_approved_use, IsIndicated, IsSlotBlock, IsBlockOf, HasBlock};
ghost use Rattle.transcript_check.specs.Effects.{TellsHeader};

use crate::effects::is_ok;
use crate::request_facts::{mac_length_of, names_no_slot, service_for};
use bits_core::{Domain, Header, Kind, fits};
use module_frames::{PublicState, ReplyHead, Request};
use service_table::{Status, approved, is_cryptographic};

// Whole semiblocks, at most nine: at least three, and with padding at least two (SP 800-38F, 5.3.1).
fn is_wrapped_length(pad: bool, length: usize) -> bool
    ensures { result ≡ is_wrapped_length pad length }
{
    let least = if pad { 16 } else { 24 };
    least <= length && length <= 72 && length % 8 == 0
}

// Whether the payload of a request that is done may have this length.
fn is_payload_length(request: &Request<'_>, long: usize) -> bool
    requires { IsInRange (request_value request.now) }
    ensures { IsTrue result ↔ IsPayloadLength (request_value request.now) long }
{
    match *request {
        Request::Hash { alg, .. } => long == alg.size(),
        Request::Mac { length, .. } => long == length,
        Request::Seal { length, text, .. } => long == 12 + (text.len() + length),
        Request::SealIv { length, text, .. } => long == text.len() + length,
        Request::Open { text, .. } => long == text.len(),
        Request::Wrap { .. } => is_wrapped_length(false, long),
        Request::WrapPad { .. } => is_wrapped_length(true, long),
        Request::Random { length, .. } => long == length,
        Request::PowerOn { .. }
        | Request::TestStep
        | Request::RequestTests
        | Request::ShowStatus
        | Request::ShowVersion
        | Request::SelectRole { .. }
        | Request::Reset
        | Request::EntryBegin { .. }
        | Request::EntryBytes { .. }
        | Request::EntryCommit { .. }
        | Request::EntryAbort
        | Request::Zeroise { .. }
        | Request::ZeroiseAll
        | Request::ShowSlot { .. }
        | Request::ZeroiseTree { .. }
        | Request::MacVerify { .. }
        | Request::Unwrap { .. }
        | Request::UnwrapPad { .. }
        | Request::Derive { .. }
        | Request::Generate { .. }
        | Request::Reseed { .. } => long == 0,
    }
}

/// Whether the payload has a length that the request tells, and none where it isn't done.
pub fn has_payload(request: &Request<'_>, head: &ReplyHead) -> bool
    requires { IsInRange (request_value request.now) }
    ensures { IsTrue result ↔ HasPayload (request_value request.now) head.now }
{
    if is_ok(head.status) {
        is_payload_length(request, head.length as usize)
    } else {
        head.length == 0
    }
}

// Whether it is an approved use that was done.
fn is_approved_use(request: &Request<'_>, status: Status) -> bool
    ensures { (what : CryptographicRequest) → request_value request.now ≡ Cryptographic what → result ≡ is_approved_use what status }
{
    is_ok(status) && approved(service_for(request), mac_length_of(request))
}

/// Whether the indicator tells of an approved use that was done, and for a request that names no slot of each.
pub fn is_indicated(request: &Request<'_>, head: &ReplyHead) -> bool
    ensures { IsTrue result ↔ IsIndicated (request_value request.now) head.now }
{
    if !is_cryptographic(service_for(request)) {
        return !head.approved;
    }
    let is_use = is_approved_use(request, head.status);
    if names_no_slot(request) {
        head.approved == is_use
    } else {
        is_use || !head.approved
    }
}

// Whether two blocks are the same.
fn is_same(block: &[u8; 12], other: &[u8; 12]) -> bool
    ensures { IsTrue result ↔ (block.now ≡ other.now) }
{
    block == other
}

// The number of tests that passed, as a status block tells it.
fn tests_told(block: &[u8; 12]) -> u16
    ensures { to_be_bytes w16 result ≡ take 2 (drop 2 block.now) }
{
    u16::from_be_bytes([block[2], block[3]])
}

// Whether a block tells the public state, and any number of tests that passed.
fn is_status_block(found: PublicState, block: &[u8; 12]) -> bool
    ensures { IsTrue result ↔ ((tests_passed : ℕ) × (block.now ≡ status_block found tests_passed)) }
{
    is_same(block, &found.status_block(tests_told(block)))
}

// The uses that are left, as a full slot's block tells them.
fn uses_told(block: &[u8; 12]) -> u32
    ensures { to_be_bytes w32 result ≡ drop 8 block.now }
{
    u32::from_be_bytes([block[8], block[9], block[10], block[11]])
}

// The header that a block tells as that of a full slot. `None` where it tells none so.
fn header_told(block: &[u8; 12]) -> Option<Header>
    ensures { TellsHeader block.now result }
{
    if block[0] != 1 || block[3] > 1 || block[5] != 0 || block[6] != 0 || block[7] != 0 {
        return None;
    }
    Some(Header {
        kind: Kind::from_number(block[1])?,
        domain: Domain::from_number(block[2])?,
        export: block[3] == 1,
        uses: uses_told(block),
    })
}

// Whether a block tells that a slot is empty, or a full one's header and a length that fits it.
fn is_slot_block(block: &[u8; 12]) -> bool
    ensures { IsTrue result ↔ IsSlotBlock block.now }
{
    if is_same(block, &[0; 12]) {
        return true;
    }
    match header_told(block) {
        Some(header) => fits(header.kind, header.domain, block[4] as usize),
        None => false,
    }
}

// Whether the block is what a request tells that is done.
fn is_block_of(request: &Request<'_>, found: PublicState, block: &[u8; 12]) -> bool
    ensures { IsTrue result ↔ IsBlockOf (request_value request.now) found block.now }
{
    match *request {
        Request::ShowStatus => is_status_block(found, block),
        Request::ShowVersion => *block == *b"SYMMOD 01.00",
        Request::ShowSlot { .. } => is_slot_block(block),
        Request::PowerOn { .. }
        | Request::TestStep
        | Request::RequestTests
        | Request::SelectRole { .. }
        | Request::Reset
        | Request::EntryBegin { .. }
        | Request::EntryBytes { .. }
        | Request::EntryCommit { .. }
        | Request::EntryAbort
        | Request::Zeroise { .. }
        | Request::ZeroiseAll
        | Request::ZeroiseTree { .. }
        | Request::Hash { .. }
        | Request::Mac { .. }
        | Request::MacVerify { .. }
        | Request::Seal { .. }
        | Request::SealIv { .. }
        | Request::Open { .. }
        | Request::Wrap { .. }
        | Request::Unwrap { .. }
        | Request::WrapPad { .. }
        | Request::UnwrapPad { .. }
        | Request::Derive { .. }
        | Request::Random { .. }
        | Request::Generate { .. }
        | Request::Reseed { .. } => *block == [0; 12],
    }
}

/// Whether the block is what the request tells, and zero where it isn't done.
pub fn has_block(request: &Request<'_>, found: PublicState, head: &ReplyHead) -> bool
    ensures { IsTrue result ↔ HasBlock (request_value request.now) found head.now }
{
    if is_ok(head.status) {
        is_block_of(request, found, &head.block)
    } else {
        head.block == [0; 12]
    }
}

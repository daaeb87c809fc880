// The forms of the bodies: a reader for each, which answers None exactly where the body isn't of its form.
ghost use Rattle.std.specs.Prelude.{◌≡◌, ◌<◌, IfSome};
ghost use Rattle.std.specs.Option.{option_map};
ghost use Rattle.bits_core.specs.Algorithms.{alg_of};
ghost use Rattle.module_frames.specs.Requests.{request_value, power_on_of, select_role_of, entry_begin_of, piece_of, commit_of, slot_of, hash_of, is_mac_length, mac_with, mac_of, verify_with, mac_verify_of, service_for, IsInRange};

use crate::Request;
use crate::shared_parts::read_new_parameter;
use bits_core::{Alg, SlotId};
use service_table::Service;

/// The largest period that a module may have.
pub const PERIOD_MAX: u32 = 1_000_000;

/// The longest piece of a parameter that one command may bring, in bytes.
pub const PIECE_MAX: usize = 64;

pub fn read_power_on(body: &[u8]) -> Option<Request<'_>>
    ensures read { option_map request_value result ≡ power_on_of body.now }
    ensures in_range { IfSome result (λ request. IsInRange (request_value request)) }
    ensures of_service { IfSome result (λ request. service_for (request_value request) ≡ Service.PowerOn) }
{
    match body {
        [a, b, c, d] => {
            let period = u32::from_be_bytes([*a, *b, *c, *d]);
            (period <= PERIOD_MAX).then_some(Request::PowerOn { period })
        }
        _ => None,
    }
}

pub fn read_select_role(body: &[u8]) -> Option<Request<'_>>
    ensures read { option_map request_value result ≡ select_role_of body.now }
    ensures in_range { IfSome result (λ request. IsInRange (request_value request)) }
    ensures of_service { IfSome result (λ request. service_for (request_value request) ≡ Service.SelectRole) }
{
    match body {
        [role] => (*role <= 2).then_some(Request::SelectRole { role: *role }),
        _ => None,
    }
}

pub fn read_entry_begin(body: &[u8]) -> Option<Request<'_>>
    ensures read { option_map request_value result ≡ entry_begin_of body.now }
    ensures in_range { IfSome result (λ request. IsInRange (request_value request)) }
    ensures of_service { IfSome result (λ request. service_for (request_value request) ≡ Service.EntryBegin) }
{
    let new = read_new_parameter(body)?;
    Some(Request::EntryBegin {
        slot: new.slot,
        header: new.header,
        length: new.length,
    })
}

pub fn read_piece(body: &[u8]) -> Option<Request<'_>>
    ensures read { option_map request_value result ≡ piece_of body.now }
    ensures in_range { IfSome result (λ request. IsInRange (request_value request)) }
    ensures of_service { IfSome result (λ request. service_for (request_value request) ≡ Service.EntryBytes) }
{
    if body.is_empty() || body.len() > PIECE_MAX {
        return None;
    }
    Some(Request::EntryBytes { piece: body })
}

pub fn read_commit(body: &[u8]) -> Option<Request<'_>>
    ensures read { option_map request_value result ≡ commit_of body.now }
    ensures in_range { IfSome result (λ request. IsInRange (request_value request)) }
    ensures of_service { IfSome result (λ request. service_for (request_value request) ≡ Service.EntryCommit) }
{
    (body.len() == 8).then_some(Request::EntryCommit { check: body })
}

pub fn read_slot(body: &[u8]) -> Option<SlotId>
    ensures read { result ≡ slot_of body.now }
    ensures in_range { IfSome result (λ slot. slot < 16) }
{
    match body {
        [slot] => SlotId::new(*slot),
        _ => None,
    }
}

pub fn read_hash(body: &[u8]) -> Option<Request<'_>>
    ensures read { option_map request_value result ≡ hash_of body.now }
    ensures in_range { IfSome result (λ request. IsInRange (request_value request)) }
    ensures of_service { IfSome result (λ request. service_for (request_value request) ≡ Service.Hash) }
{
    if body.is_empty() {
        return None;
    }
    let alg = Alg::from_number(body[0])?;
    Some(Request::Hash {
        alg,
        text: &body[1..],
    })
}

// Whether a MAC with this hash may have this length.
fn is_mac_length(alg: Alg, length: usize) -> bool
    ensures { result ≡ is_mac_length alg length }
{
    1 <= length && length <= alg.size()
}

pub fn read_mac(body: &[u8]) -> Option<Request<'_>>
    ensures read { option_map request_value result ≡ mac_of body.now }
    ensures in_range { IfSome result (λ request. IsInRange (request_value request)) }
    ensures of_service { IfSome result (λ request. service_for (request_value request) ≡ Service.Mac) }
{
    if body.len() < 3 {
        return None;
    }
    mac(body[0], body[1], body[2], &body[3..])
}

fn mac(slot: u8, alg: u8, length: u8, text: &[u8]) -> Option<Request<'_>>
    ensures read { option_map request_value result ≡ mac_with slot (alg_of alg) length text.now }
    ensures in_range { IfSome result (λ request. IsInRange (request_value request)) }
    ensures of_service { IfSome result (λ request. service_for (request_value request) ≡ Service.Mac) }
{
    let slot = SlotId::new(slot)?;
    let alg = Alg::from_number(alg)?;
    let length = usize::from(length);
    if !is_mac_length(alg, length) {
        return None;
    }
    Some(Request::Mac {
        slot,
        alg,
        length,
        text,
    })
}

pub fn read_mac_verify(body: &[u8]) -> Option<Request<'_>>
    ensures read { option_map request_value result ≡ mac_verify_of body.now }
    ensures in_range { IfSome result (λ request. IsInRange (request_value request)) }
    ensures of_service { IfSome result (λ request. service_for (request_value request) ≡ Service.MacVerify) }
{
    if body.len() < 3 {
        return None;
    }
    mac_verify(body[0], body[1], body[2], &body[3..])
}

fn mac_verify(slot: u8, alg: u8, length: u8, remainder: &[u8]) -> Option<Request<'_>>
    ensures read { option_map request_value result ≡ verify_with slot (alg_of alg) length remainder.now }
    ensures in_range { IfSome result (λ request. IsInRange (request_value request)) }
    ensures of_service { IfSome result (λ request. service_for (request_value request) ≡ Service.MacVerify) }
{
    let slot = SlotId::new(slot)?;
    let alg = Alg::from_number(alg)?;
    let length = usize::from(length);
    if !is_mac_length(alg, length) || length > remainder.len() {
        return None;
    }
    Some(Request::MacVerify {
        slot,
        alg,
        tag: &remainder[..length],
        text: &remainder[length..],
    })
}

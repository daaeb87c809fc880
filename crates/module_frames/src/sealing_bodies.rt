// The bodies that ask for authenticated encryption (SP 800-38D).
ghost use Rattle.std.specs.Prelude.{◌≡◌, ◌≢◌, ◌<◌, ◌≤◌, ◌+◌, IfSome, length};
ghost use Rattle.std.specs.Option.{option_map};
ghost use Rattle.bits_core.specs.declared.limits.TheConstants.{LARGEST_BODY, LARGEST_PAYLOAD};
ghost use Rattle.module_frames.specs.Requests.{request_value, service_for, IsInRange};
ghost use Rattle.module_frames.specs.SealingBodies.{is_tag_length, is_iv_length, has_head, seal_with, seal_of, seal_iv_with, seal_iv_of, open_with, open_of};

use crate::Request;
use crate::shared_parts::number_at;
use bits_core::{LARGEST_BODY, SlotId};
use service_table::Service;

/// The shortest tag that the module makes and takes, in bytes (SP 800-38D, 5.2.1.2).
pub const TAG_MIN: usize = 12;

/// The longest tag, which is a whole block.
pub const TAG_MAX: usize = 16;

/// The longest IV that a command may bring, in bytes.
pub const IV_MAX: usize = 255;

// The lengths of the fields in front of IV, AAD and text, in bytes: without an IV, and with one.
const HEAD: usize = 6;

const HEAD_WITH_IV: usize = 7;

// Whether a tag may have this length.
fn is_tag_length(n: usize) -> bool
    ensures { result ≡ is_tag_length n }
{
    TAG_MIN <= n && n <= TAG_MAX
}

// Whether an IV may have this length.
fn is_iv_length(n: usize) -> bool
    ensures { result ≡ is_iv_length n }
{
    1 <= n && n <= IV_MAX
}

// Whether a body has a head of so many bytes, and no more bytes than any body may have.
fn has_head(n: usize, body: &[u8]) -> bool
    ensures { result ≡ has_head n body.now }
{
    n <= body.len() && body.len() <= LARGEST_BODY
}

pub fn read_seal(body: &[u8]) -> Option<Request<'_>>
    ensures read { option_map request_value result ≡ seal_of body.now }
    ensures in_range { IfSome result (λ request. IsInRange (request_value request)) }
    ensures of_service { IfSome result (λ request. service_for (request_value request) ≡ Service.Seal) }
{
    if !has_head(HEAD, body) {
        return None;
    }
    seal(body[0], body[1], number_at(body, 2), &body[HEAD..])
}

fn seal(slot: u8, tag_length: u8, aad_length: u32, remainder: &[u8]) -> Option<Request<'_>>
    requires { length remainder.now ≤ LARGEST_BODY }
    ensures read { option_map request_value result ≡ seal_with slot tag_length aad_length remainder.now }
    ensures in_range { IfSome result (λ request. IsInRange (request_value request)) }
    ensures of_service { IfSome result (λ request. service_for (request_value request) ≡ Service.Seal) }
{
    let slot = SlotId::new(slot)?;
    let length = usize::from(tag_length);
    let aad_length = aad_length as usize;
    if !is_tag_length(length) || aad_length > remainder.len() {
        return None;
    }
    Some(Request::Seal {
        slot,
        length,
        aad: &remainder[..aad_length],
        text: &remainder[aad_length..],
    })
}

pub fn read_seal_iv(body: &[u8]) -> Option<Request<'_>>
    ensures read { option_map request_value result ≡ seal_iv_of body.now }
    ensures in_range { IfSome result (λ request. IsInRange (request_value request)) }
    ensures of_service { IfSome result (λ request. service_for (request_value request) ≡ Service.SealIv) }
{
    if !has_head(HEAD_WITH_IV, body) {
        return None;
    }
    let aad_length = number_at(body, 3);
    seal_iv(body[0], body[1], body[2], aad_length, &body[HEAD_WITH_IV..])
}

fn seal_iv(
    slot: u8,
    tag_length: u8,
    iv_length: u8,
    aad_length: u32,
    remainder: &[u8],
) -> Option<Request<'_>>
    requires { length remainder.now ≤ LARGEST_BODY }
    ensures read { option_map request_value result ≡ seal_iv_with slot tag_length iv_length aad_length remainder.now }
    ensures in_range { IfSome result (λ request. IsInRange (request_value request)) }
    ensures of_service { IfSome result (λ request. service_for (request_value request) ≡ Service.SealIv) }
{
    let slot = SlotId::new(slot)?;
    let length = usize::from(tag_length);
    let iv_length = usize::from(iv_length);
    let aad_length = aad_length as usize;
    if !is_tag_length(length) || !is_iv_length(iv_length) {
        return None;
    }
    if iv_length + aad_length > remainder.len() {
        return None;
    }
    let behind = &remainder[iv_length..];
    Some(Request::SealIv {
        slot,
        length,
        iv: &remainder[..iv_length],
        aad: &behind[..aad_length],
        text: &behind[aad_length..],
    })
}

pub fn read_open(body: &[u8]) -> Option<Request<'_>>
    ensures read { option_map request_value result ≡ open_of body.now }
    ensures in_range { IfSome result (λ request. IsInRange (request_value request)) }
    ensures of_service { IfSome result (λ request. service_for (request_value request) ≡ Service.Open) }
{
    if !has_head(HEAD_WITH_IV, body) {
        return None;
    }
    let aad_length = number_at(body, 3);
    open(body[0], body[1], body[2], aad_length, &body[HEAD_WITH_IV..])
}

fn open(
    slot: u8,
    tag_length: u8,
    iv_length: u8,
    aad_length: u32,
    remainder: &[u8],
) -> Option<Request<'_>>
    requires { length remainder.now ≤ LARGEST_BODY }
    ensures read { option_map request_value result ≡ open_with slot tag_length iv_length aad_length remainder.now }
    ensures in_range { IfSome result (λ request. IsInRange (request_value request)) }
    ensures of_service { IfSome result (λ request. service_for (request_value request) ≡ Service.Open) }
{
    let slot = SlotId::new(slot)?;
    let tag_length = usize::from(tag_length);
    let iv_length = usize::from(iv_length);
    let aad_length = aad_length as usize;
    if !is_tag_length(tag_length) || !is_iv_length(iv_length) {
        return None;
    }
    if iv_length + aad_length + tag_length > remainder.len() {
        return None;
    }
    let behind = &remainder[iv_length + aad_length..];
    let text_length = behind.len() - tag_length;
    Some(Request::Open {
        slot,
        iv: &remainder[..iv_length],
        aad: &remainder[iv_length..iv_length + aad_length],
        text: &behind[..text_length],
        tag: &behind[text_length..],
    })
}

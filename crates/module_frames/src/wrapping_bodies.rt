// The bodies that ask for key wrapping (SP 800-38F).
ghost use Rattle.std.specs.Prelude.{◌≡◌, ◌≢◌, ◌<◌, ◌≤◌, ◌-◌, IfSome, IsTrue, length};
ghost use Rattle.std.specs.Option.{option_map};
ghost use Rattle.service_table.specs.Services.{wrapping_service, unwrapping_service};
ghost use Rattle.module_frames.specs.Requests.{request_value, service_for, IsInRange};
ghost use Rattle.module_frames.specs.WrappingBodies.{wrap_of, is_wrapped_length, unwrapped_fits, unwrap_of};

use crate::Request;
use crate::shared_parts::{TARGET, read_target};
use bits_core::{Domain, Kind, SlotId, fits};

/// The length of a semiblock, in bytes (SP 800-38F, 3.1).
pub const SEMIBLOCK: usize = 8;

/// The longest wrapping of a parameter, in bytes: that of 64 bytes.
pub const WRAPPED_MAX: usize = 72;

pub fn read_wrap(pad: bool, body: &[u8]) -> Option<Request<'_>>
    ensures read { option_map request_value result ≡ wrap_of pad body.now }
    ensures in_range { IfSome result (λ request. IsInRange (request_value request)) }
    ensures of_service { IfSome result (λ request. service_for (request_value request) ≡ wrapping_service pad) }
{
    if body.len() != 2 || body[0] == body[1] {
        return None;
    }
    let kek = SlotId::new(body[0])?;
    let second = SlotId::new(body[1])?;
    if pad {
        Some(Request::WrapPad { kek, second })
    } else {
        Some(Request::Wrap { kek, second })
    }
}

// Whether a wrapping may have this length.
fn is_wrapped_length(pad: bool, n: usize) -> bool
    ensures { result ≡ is_wrapped_length pad n }
{
    let least = if pad { 2 * SEMIBLOCK } else { 3 * SEMIBLOCK };
    least <= n && n <= WRAPPED_MAX && n % SEMIBLOCK == 0
}

// Whether what a wrapping of this length holds may have a length that fits.
fn unwrapped_fits(pad: bool, kind: Kind, n: usize) -> bool
    requires { 8 ≤ n }
    ensures { result ≡ unwrapped_fits pad kind n }
{
    pad || fits(kind, Domain::Other, n - SEMIBLOCK)
}

pub fn read_unwrap(pad: bool, body: &[u8]) -> Option<Request<'_>>
    ensures read { option_map request_value result ≡ unwrap_of pad body.now }
    ensures in_range { IfSome result (λ request. IsInRange (request_value request)) }
    ensures of_service { IfSome result (λ request. service_for (request_value request) ≡ unwrapping_service pad) }
{
    let target = read_target(body)?;
    let wrapped = &body[TARGET..];
    if !is_wrapped_length(pad, wrapped.len()) || !unwrapped_fits(pad, target.kind, wrapped.len()) {
        return None;
    }
    let (kek, kind, export, uses) = (target.source, target.kind, target.export, target.uses);
    let target = target.slot;
    if pad {
        return Some(Request::UnwrapPad {
            kek,
            target,
            kind,
            export,
            uses,
            wrapped,
        });
    }
    Some(Request::Unwrap {
        kek,
        target,
        kind,
        export,
        uses,
        wrapped,
    })
}

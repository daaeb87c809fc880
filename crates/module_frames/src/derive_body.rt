// The body that asks for key derivation (SP 800-108 Rev. 1, 4.1).
ghost use Rattle.std.specs.Prelude.{◌≡◌, ◌≢◌, ◌<◌, ◌≤◌, IfSome, IsTrue, Some, length};
ghost use Rattle.std.specs.Option.{option_map};
ghost use Rattle.module_frames.specs.SharedParts.{IsTargetInRange};
ghost use Rattle.module_frames.specs.Requests.{request_value, service_for, IsInRange};
ghost use Rattle.module_frames.specs.DeriveBodies.{derive_with, derive_of};

use crate::Request;
use crate::shared_parts::{TARGET, Target, read_target};
use bits_core::{Domain, fits};
use service_table::Service;

/// The longest context, in bytes. A label's length is told in one byte, so that it has no more.
pub const CONTEXT_MAX: usize = 255;

// The length of the fields in front of label and context, in bytes.
const HEAD: usize = TARGET + 2;

pub fn read_derive(body: &[u8]) -> Option<Request<'_>>
    ensures read { option_map request_value result ≡ derive_of body.now }
    ensures in_range { IfSome result (λ request. IsInRange (request_value request)) }
    ensures of_service { IfSome result (λ request. service_for (request_value request) ≡ Service.Derive) }
{
    if body.len() < HEAD {
        return None;
    }
    let target = read_target(body)?;
    derive(target, body[8], body[9], &body[HEAD..])
}

fn derive(target: Target, long: u8, label_length: u8, remainder: &[u8]) -> Option<Request<'_>>
    requires { IsTargetInRange target }
    ensures read { option_map request_value result ≡ derive_with (Some target) long label_length remainder.now }
    ensures in_range { IfSome result (λ request. IsInRange (request_value request)) }
    ensures of_service { IfSome result (λ request. service_for (request_value request) ≡ Service.Derive) }
{
    let length = usize::from(long);
    let label_length = usize::from(label_length);
    if !fits(target.kind, Domain::Approved, length) || label_length > remainder.len() {
        return None;
    }
    let context = &remainder[label_length..];
    if context.len() > CONTEXT_MAX {
        return None;
    }
    Some(Request::Derive {
        source: target.source,
        target: target.slot,
        kind: target.kind,
        export: target.export,
        uses: target.uses,
        length,
        label: &remainder[..label_length],
        context,
    })
}

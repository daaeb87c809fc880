// The bodies that ask the random bit generator (SP 800-90A Rev. 1, 9.2 and 9.3).
ghost use Rattle.std.specs.Prelude.{◌≡◌, ◌<◌, ◌≤◌, IfSome, IsTrue, length};
ghost use Rattle.std.specs.Option.{option_map};
ghost use Rattle.module_frames.specs.Requests.{request_value, service_for, IsInRange};
ghost use Rattle.module_frames.specs.GeneratorBodies.{random_with, random_of, generate_of, reseed_of};

use crate::Request;
use crate::shared_parts::{number_at, read_new_parameter};
use service_table::Service;

/// The most bytes that one command may draw.
pub const RANDOM_MAX: usize = 65_536;

/// The longest additional input, in bytes.
pub const ADDITIONAL_MAX: usize = 256;

pub fn read_random(body: &[u8]) -> Option<Request<'_>>
    ensures read { option_map request_value result ≡ random_of body.now }
    ensures in_range { IfSome result (λ request. IsInRange (request_value request)) }
    ensures of_service { IfSome result (λ request. service_for (request_value request) ≡ Service.Random) }
{
    if body.len() < 4 {
        return None;
    }
    random_bytes(number_at(body, 0), &body[4..])
}

fn random_bytes(long: u32, additional: &[u8]) -> Option<Request<'_>>
    ensures read { option_map request_value result ≡ random_with long additional.now }
    ensures in_range { IfSome result (λ request. IsInRange (request_value request)) }
    ensures of_service { IfSome result (λ request. service_for (request_value request) ≡ Service.Random) }
{
    let length = long as usize;
    if length == 0 || length > RANDOM_MAX || additional.len() > ADDITIONAL_MAX {
        return None;
    }
    Some(Request::Random { length, additional })
}

pub fn read_generate(body: &[u8]) -> Option<Request<'_>>
    ensures read { option_map request_value result ≡ generate_of body.now }
    ensures in_range { IfSome result (λ request. IsInRange (request_value request)) }
    ensures of_service { IfSome result (λ request. service_for (request_value request) ≡ Service.Generate) }
{
    let new = read_new_parameter(body)?;
    Some(Request::Generate {
        target: new.slot,
        header: new.header,
        length: new.length,
    })
}

pub fn read_reseed(body: &[u8]) -> Option<Request<'_>>
    ensures read { option_map request_value result ≡ reseed_of body.now }
    ensures in_range { IfSome result (λ request. IsInRange (request_value request)) }
    ensures of_service { IfSome result (λ request. service_for (request_value request) ≡ Service.Reseed) }
{
    (body.len() <= ADDITIONAL_MAX).then_some(Request::Reseed { additional: body })
}

// Fields that the bodies of several services share.
ghost use Rattle.std.specs.Prelude.{◌≡◌, ◌+◌, ◌≤◌, IfSome, length};
ghost use Rattle.bits_core.specs.Parameters.{kind_of, domain_of};
ghost use Rattle.module_frames.specs.SharedParts.{number_at, new_parameter_with, new_parameter_of, target_with, target_of, IsNewParameterInRange, IsTargetInRange};

use bits_core::{Domain, Header, Kind, SlotId, fits};

/// A parameter that a slot is to be filled with, as far as it is told without its bytes.
#[derive(Clone, Copy)]
pub struct NewParameter {
    pub slot: SlotId,
    pub header: Header,
    pub length: usize,
}

/// A slot that is to be filled with what is made by means of the source's parameter.
#[derive(Clone, Copy)]
pub struct Target {
    pub source: SlotId,
    pub slot: SlotId,
    pub kind: Kind,
    pub export: bool,
    pub uses: u32,
}

/// The length of a target at the front of a body, in bytes.
pub const TARGET: usize = 8;

/// The number in the four bytes from a place on.
pub fn number_at(body: &[u8], place: usize) -> u32
    requires { place + 4 ≤ length body.now }
    ensures { result ≡ number_at body.now place }
{
    u32::from_be_bytes([
        body[place],
        body[place + 1],
        body[place + 2],
        body[place + 3],
    ])
}

pub fn read_new_parameter(body: &[u8]) -> Option<NewParameter>
    ensures read { result ≡ new_parameter_of body.now }
    ensures in_range { IfSome result (λ new. IsNewParameterInRange new) }
{
    if body.len() != 9 {
        return None;
    }
    let uses = number_at(body, 4);
    new_parameter(body[0], body[1], body[2], body[3], uses, body[8])
}

fn new_parameter(
    slot: u8,
    kind: u8,
    domain: u8,
    export: u8,
    uses: u32,
    long: u8,
) -> Option<NewParameter>
    ensures read { result ≡ new_parameter_with slot (kind_of kind) (domain_of domain) export uses long }
    ensures in_range { IfSome result (λ new. IsNewParameterInRange new) }
{
    let slot = SlotId::new(slot)?;
    let kind = Kind::from_number(kind)?;
    let domain = Domain::from_number(domain)?;
    let length = usize::from(long);
    if export > 1 || uses == 0 || !fits(kind, domain, length) {
        return None;
    }
    let header = Header {
        kind,
        domain,
        export: export == 1,
        uses,
    };
    Some(NewParameter {
        slot,
        header,
        length,
    })
}

pub fn read_target(body: &[u8]) -> Option<Target>
    ensures read { result ≡ target_of body.now }
    ensures in_range { IfSome result (λ target. IsTargetInRange target) }
{
    if body.len() < TARGET {
        return None;
    }
    make_target(body[0], body[1], body[2], body[3], number_at(body, 4))
}

fn make_target(source: u8, slot: u8, kind: u8, export: u8, uses: u32) -> Option<Target>
    ensures read { result ≡ target_with source slot (kind_of kind) export uses }
    ensures in_range { IfSome result (λ target. IsTargetInRange target) }
{
    if source == slot || export > 1 || uses == 0 {
        return None;
    }
    Some(Target {
        source: SlotId::new(source)?,
        slot: SlotId::new(slot)?,
        kind: Kind::from_number(kind)?,
        export: export == 1,
        uses,
    })
}

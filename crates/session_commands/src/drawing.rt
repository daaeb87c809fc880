// The commands of a session, one by one.
ghost use Rattle.std.specs.Prelude.{◌≡◌, ◌≤◌, ◌<◌, ◌+◌, ◌++◌, ◌∷◌, [], Some, length, slice_get};
ghost use Rattle.bits_core.specs.ByteList.{zeros};
ghost use Rattle.service_table.specs.declared.service.Service.TheVariants as service;
ghost use Rattle.bits_core.specs.declared.limits.TheConstants.{LARGEST_BODY};
ghost use Rattle.session_commands.specs.SessionCommands.{command_of, generated_key, first_commands, next_number, upper_half, size_of, text_of, drawn_command};

use module_frames::Command;
use service_table::Service;

/// The number of commands with which each session begins.
pub const FIRST_COMMANDS: u8 = 11;

fn set(service: Service, body: &[u8], into: &mut Command)
    requires { length body.now ≤ LARGEST_BODY }
    ensures { into.new ≡ command_of service body.now }
{
    into.set(service.number(), body);
}

// An approved key of 32 bytes, for export and with 1,000,000 uses.
fn generate(slot: u8, kind: u8, into: &mut Command)
    ensures { into.new ≡ generated_key slot kind }
{
    let body = [slot, kind, 1, 1, 0x00, 0x0f, 0x42, 0x40, 32];
    set(Service::Generate, &body, into);
}

/// Makes it the command with this number, counted from 0, of those with which each session begins.
pub fn begin(number: u8, into: &mut Command)
    requires { number < 11 }
    ensures { slice_get first_commands number ≡ Some into.new }
{
    match number {
        0 => set(Service::PowerOn, &[0; 4], into),
        1 => set(Service::RequestTests, &[], into),
        2 | 3 | 4 => set(Service::TestStep, &[], into),
        5 => set(Service::SelectRole, &[1], into),
        6 => generate(0, 1, into),
        7 => generate(1, 2, into),
        8 => generate(2, 3, into),
        9 => generate(3, 4, into),
        10 => set(Service::SelectRole, &[2], into),
        _ => unreachable!(),
    }
}

/// The number after x.
pub fn next_number(x: u64) -> u64
    ensures { result ≡ next_number x }
{
    let next = 6_364_136_223_846_793_005 * u128::from(x) + 1_442_695_040_888_963_407;
    (next % (1 << 64)) as u64
}

// How long a text is.
fn size_of(r: u32) -> u32
    ensures size { result ≡ size_of r }
    ensures short { result < 4096 }
{
    r / 256 % 4096
}

// Puts the text behind the body.
fn push_text(r: u32, into: &mut Command)
    requires { length into.old.body ≤ 64 }
    ensures text { into.new ≡ record into.old { body = into.old.body ++ text_of r } }
    ensures short { length (text_of r) < 4096 }
{
    for place in 0..size_of(r) {
        let byte = (u64::from(place) + u64::from(r)) % 256;
        into.push(&[byte as u8]);
    }
}

// A command whose body is this head and then the text.
fn set_text(service: Service, head: &[u8], r: u32, into: &mut Command)
    requires { length head.now ≤ 64 }
    ensures set { into.new ≡ command_of service (head.now ++ text_of r) }
    ensures short { length (text_of r) < 4096 }
{
    set(service, head, into);
    push_text(r, into);
}

// A text to be opened, with an IV and a tag of zeros.
fn open(r: u32, into: &mut Command)
    ensures { into.new ≡ command_of service.Open (0 ∷ 16 ∷ 12 ∷ (zeros 16 ++ (text_of r ++ zeros 16))) }
{
    let mut head = [0; 19];
    head[1] = 16;
    head[2] = 12;
    set_text(Service::Open, &head, r, into);
    into.push(&[0; 16]);
}

/// Makes it the command that the upper half of a number decides.
pub fn draw(r: u32, into: &mut Command)
    ensures { into.new ≡ drawn_command r }
{
    match r % 8 {
        0 => set_text(Service::Hash, &[1], r, into),
        1 => set_text(Service::Mac, &[2, 1, 32], r, into),
        2 => set_text(Service::Seal, &[0, 16, 0, 0, 0, 0], r, into),
        3 => set(Service::Random, &(size_of(r) + 1).to_be_bytes(), into),
        4 => set_text(Service::Hash, &[3], r, into),
        5 => open(r, into),
        6 => set(Service::ShowStatus, &[], into),
        _ => set(Service::ShowSlot, &[(size_of(r) % 16) as u8], into),
    }
}

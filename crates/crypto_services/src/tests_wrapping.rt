//! Values of Python's cryptography, printed by checks/wrapping_rows.py.
ghost use Rattle.std.specs.Prelude.{◌≡◌, ◌≢◌, ◌≤◌, length, IsTrue};
ghost use Rattle.bits_core.specs.Parameters.{length_fits};
ghost use Rattle.bits_core.specs.declared.limits.TheConstants.{LARGEST_PAYLOAD};
ghost use Rattle.engine_core.specs.Inputs.{IsUnwrappable};

use crate::tests::{expect_uses, outcome, slot_at};
use crate::{Outcome, Parts, unwrap, wrap};
use bits_core::{Domain, Enabled, Header, Inhibited, Kind, LARGEST_PAYLOAD, Outbox, Port, SlotId};
use engine_core::{Engine, Faulty, Shipped};
use service_table::Status;
use ssp_slots::SlotFault;
use std::process::Abort;
use std::test::Fail;

// The key that wraps.
const KEK: [u8; 32] = [
    0x00, 0x01, 0x02, 0x03, 0x04, 0x05, 0x06, 0x07, 0x08, 0x09, 0x0a, 0x0b, 0x0c, 0x0d, 0x0e, 0x0f,
    0x10, 0x11, 0x12, 0x13, 0x14, 0x15, 0x16, 0x17, 0x18, 0x19, 0x1a, 0x1b, 0x1c, 0x1d, 0x1e, 0x1f,
];

// What is wrapped.
const TEXT: [u8; 64] = [
    0x40, 0x41, 0x42, 0x43, 0x44, 0x45, 0x46, 0x47, 0x48, 0x49, 0x4a, 0x4b, 0x4c, 0x4d, 0x4e, 0x4f,
    0x50, 0x51, 0x52, 0x53, 0x54, 0x55, 0x56, 0x57, 0x58, 0x59, 0x5a, 0x5b, 0x5c, 0x5d, 0x5e, 0x5f,
    0x60, 0x61, 0x62, 0x63, 0x64, 0x65, 0x66, 0x67, 0x68, 0x69, 0x6a, 0x6b, 0x6c, 0x6d, 0x6e, 0x6f,
    0x70, 0x71, 0x72, 0x73, 0x74, 0x75, 0x76, 0x77, 0x78, 0x79, 0x7a, 0x7b, 0x7c, 0x7d, 0x7e, 0x7f,
];

// The first 16 bytes of TEXT, wrapped without padding.
const WRAPPED: [u8; 24] = [
    0x51, 0x96, 0x46, 0xf4, 0xbd, 0xf9, 0x99, 0x80, 0xfa, 0xc8, 0x13, 0x86, 0xe9, 0xdd, 0xd7, 0xb1,
    0xd0, 0xf7, 0x99, 0x3c, 0xe8, 0x19, 0xc4, 0x0f,
];

// All 64 bytes of TEXT, wrapped without padding.
const WRAPPED_LONGEST: [u8; 72] = [
    0xc3, 0xba, 0x81, 0x0a, 0xd2, 0x51, 0x0d, 0xd4, 0xad, 0x51, 0x6c, 0x42, 0x5d, 0x99, 0xa6, 0x45,
    0x79, 0x06, 0x2d, 0x9f, 0x3a, 0x94, 0x9c, 0xd0, 0xcd, 0xff, 0x31, 0x0a, 0xa5, 0x05, 0x50, 0x54,
    0xbb, 0xb5, 0x53, 0x56, 0x0f, 0xfd, 0x13, 0x3c, 0xc2, 0x0e, 0xa4, 0xe3, 0x4a, 0xea, 0x4c, 0xdc,
    0xa5, 0xa2, 0xfc, 0xf9, 0x27, 0x37, 0x25, 0xfd, 0x15, 0x81, 0xad, 0xe5, 0xf3, 0x24, 0x0f, 0x19,
    0x16, 0x5f, 0x98, 0x31, 0x17, 0x44, 0x5d, 0x2a,
];

// The first 20 bytes of TEXT, wrapped with padding.
const PADDED: [u8; 32] = [
    0x7b, 0xfe, 0xf0, 0xb8, 0x7c, 0x22, 0x40, 0x51, 0x56, 0x0d, 0xf2, 0x9c, 0x7b, 0xb1, 0xda, 0x82,
    0x93, 0x03, 0x32, 0x22, 0xef, 0xb4, 0x54, 0xd7, 0xad, 0xf6, 0x3b, 0xa2, 0x3d, 0x35, 0xe7, 0x66,
];

// The first byte of TEXT, wrapped with padding.
const PADDED_ONE: [u8; 16] = [
    0x3b, 0x67, 0xc7, 0x9c, 0xe4, 0x86, 0xa7, 0x01, 0x93, 0x9f, 0xb3, 0x0f, 0x00, 0x5b, 0xec, 0xbf,
];

// Puts a parameter into an empty slot.
fn put<E: Engine>(
    parts: &mut Parts<E>,
    slot: SlotId,
    header: &Header,
    bytes: &[u8],
) -> Result<(), SlotFault>
    requires fits { IsTrue (length_fits header.now.kind header.now.domain (length bytes.now)) }
    requires uses { 1 ≤ header.now.uses }
{
    parts.vault.put(slot, header, bytes)
}

fn header_of(kind: Kind, domain: Domain, export: bool, uses: u32) -> Header
    ensures kind { result.kind ≡ kind }
    ensures domain { result.domain ≡ domain }
    ensures uses { result.uses ≡ uses }
{
    Header {
        kind,
        domain,
        export,
        uses,
    }
}

// A wrapping, in `outbox`.
fn wrap_in<E: Engine>(
    parts: &mut Parts<E>,
    pad: bool,
    kek: SlotId,
    second: SlotId,
    outbox: &mut Outbox,
) -> Outcome
    requires differ { kek ≢ second }
    requires room { LARGEST_PAYLOAD ≤ outbox.old.room }
    ensures { outbox.new.room ≡ outbox.old.room }
{
    let mut port = Port::<Enabled>::over(outbox);
    wrap(parts, pad, kek, second, &mut port)
}

// An unwrapping to a parameter of one use that may not leave.
fn unwrap_in<E: Engine>(
    parts: &mut Parts<E>,
    pad: bool,
    kek: SlotId,
    target: SlotId,
    kind: Kind,
    wrapped: &[u8],
    outbox: &mut Outbox,
) -> Outcome
    requires differ { kek ≢ target }
    requires length { IsUnwrappable pad (length wrapped.now) }
    ensures { outbox.new.room ≡ outbox.old.room }
{
    let mut port = Port::<Inhibited>::over(outbox);
    unwrap(parts, pad, kek, target, kind, false, 1, wrapped, &mut port)
}

fn expect_parameter<E: Engine>(
    rt: &impl Abort,
    parts: &Parts<E>,
    slot: SlotId,
    header: Header,
    bytes: &[u8],
) {
    assert_eq!(rt; parts.vault.show(slot).header, Some(header));
    assert_eq!(rt; parts.vault.bytes(slot), bytes);
}

fn expect_empty<E: Engine>(rt: &impl Abort, parts: &Parts<E>, slot: SlotId) {
    assert_eq!(rt; parts.vault.show(slot).header, None);
    assert_eq!(rt; parts.vault.bytes(slot).len(), 0);
}

#[test]
fn independent_values_come_out_and_go_in(rt: HostRuntime) -> Result<(), Fail> {
    let mut parts = Parts::new(rt.alloc(), Shipped::new())?;
    let mut outbox = Outbox::new(rt.alloc(), LARGEST_PAYLOAD)?;
    let kek = slot_at(0);
    let header = header_of(Kind::Kek, Domain::Approved, false, 6);
    assert_eq!(rt; put(&mut parts, kek, &header, &KEK), Ok(()));
    let aes = slot_at(1);
    let header = header_of(Kind::Aes, Domain::Approved, true, 1);
    assert_eq!(rt; put(&mut parts, aes, &header, &TEXT[..16]), Ok(()));
    let long = slot_at(2);
    let header = header_of(Kind::Mac, Domain::Approved, true, 1);
    assert_eq!(rt; put(&mut parts, long, &header, &TEXT), Ok(()));
    let twenty = slot_at(3);
    let header = header_of(Kind::Kdf, Domain::Approved, true, 1);
    assert_eq!(rt; put(&mut parts, twenty, &header, &TEXT[..20]), Ok(()));
    let answer = wrap_in(&mut parts, false, kek, aes, &mut outbox);
    assert_eq!(rt; answer, outcome(Status::Ok, true));
    assert_eq!(rt; outbox.bytes(), WRAPPED.as_slice());
    let answer = wrap_in(&mut parts, false, kek, long, &mut outbox);
    assert_eq!(rt; answer, outcome(Status::Ok, true));
    assert_eq!(rt; outbox.bytes(), WRAPPED_LONGEST.as_slice());
    let answer = wrap_in(&mut parts, true, kek, twenty, &mut outbox);
    assert_eq!(rt; answer, outcome(Status::Ok, true));
    assert_eq!(rt; outbox.bytes(), PADDED.as_slice());
    expect_uses(&rt, &parts, kek, 3);
    let target = slot_at(4);
    let answer = unwrap_in(
        &mut parts,
        false,
        kek,
        target,
        Kind::Aes,
        &WRAPPED,
        &mut outbox,
    );
    assert_eq!(rt; answer, outcome(Status::Ok, true));
    assert_eq!(rt; outbox.bytes().len(), 0);
    let header = header_of(Kind::Aes, Domain::Approved, false, 1);
    expect_parameter(&rt, &parts, target, header, &TEXT[..16]);
    let target = slot_at(5);
    let answer = unwrap_in(
        &mut parts,
        false,
        kek,
        target,
        Kind::Mac,
        &WRAPPED_LONGEST,
        &mut outbox,
    );
    assert_eq!(rt; answer, outcome(Status::Ok, true));
    let header = header_of(Kind::Mac, Domain::Approved, false, 1);
    expect_parameter(&rt, &parts, target, header, &TEXT);
    let target = slot_at(6);
    let answer = unwrap_in(
        &mut parts,
        true,
        kek,
        target,
        Kind::Kdf,
        &PADDED,
        &mut outbox,
    );
    assert_eq!(rt; answer, outcome(Status::Ok, true));
    let header = header_of(Kind::Kdf, Domain::Approved, false, 1);
    expect_parameter(&rt, &parts, target, header, &TEXT[..20]);
    expect_uses(&rt, &parts, kek, 0);
    Ok(())
}

#[test]
fn the_domain_is_that_of_the_key(rt: HostRuntime) -> Result<(), Fail> {
    let mut parts = Parts::new(rt.alloc(), Shipped::new())?;
    let mut outbox = Outbox::new(rt.alloc(), LARGEST_PAYLOAD)?;
    let kek = slot_at(15);
    let header = header_of(Kind::Kek, Domain::Other, false, 2);
    assert_eq!(rt; put(&mut parts, kek, &header, &KEK), Ok(()));
    let target = slot_at(0);
    let answer = unwrap_in(
        &mut parts,
        true,
        kek,
        target,
        Kind::Mac,
        &PADDED_ONE,
        &mut outbox,
    );
    assert_eq!(rt; answer, outcome(Status::Ok, false));
    let header = header_of(Kind::Mac, Domain::Other, false, 1);
    expect_parameter(&rt, &parts, target, header, &TEXT[..1]);
    let second = slot_at(1);
    let header = header_of(Kind::Mac, Domain::Other, true, 1);
    assert_eq!(rt; put(&mut parts, second, &header, &TEXT[..1]), Ok(()));
    let answer = wrap_in(&mut parts, true, kek, second, &mut outbox);
    assert_eq!(rt; answer, outcome(Status::Ok, false));
    assert_eq!(rt; outbox.bytes(), PADDED_ONE.as_slice());
    expect_uses(&rt, &parts, second, 1);
    Ok(())
}

#[test]
fn wrap_refuses_in_its_order(rt: HostRuntime) -> Result<(), Fail> {
    let mut parts = Parts::new(rt.alloc(), Shipped::new())?;
    let mut outbox = Outbox::new(rt.alloc(), LARGEST_PAYLOAD)?;
    let kek = slot_at(0);
    let second = slot_at(1);
    // Both are empty.
    let answer = wrap_in(&mut parts, false, kek, second, &mut outbox);
    assert_eq!(rt; answer, outcome(Status::EmptySlot, false));
    let header = header_of(Kind::Mac, Domain::Other, false, 1);
    assert_eq!(rt; put(&mut parts, second, &header, &TEXT[..20]), Ok(()));
    // The key is no key-encryption key, and the other slot is empty.
    let answer = wrap_in(&mut parts, false, second, kek, &mut outbox);
    assert_eq!(rt; answer, outcome(Status::WrongKind, false));
    expect_uses(&rt, &parts, second, 1);
    let header = header_of(Kind::Kek, Domain::Approved, false, 4);
    assert_eq!(rt; put(&mut parts, kek, &header, &KEK), Ok(()));
    let answer = wrap_in(&mut parts, false, kek, slot_at(2), &mut outbox);
    assert_eq!(rt; answer, outcome(Status::EmptySlot, false));
    expect_uses(&rt, &parts, kek, 3);
    // It may not leave, its domain is another, and its length is no multiple of 8.
    let answer = wrap_in(&mut parts, false, kek, second, &mut outbox);
    assert_eq!(rt; answer, outcome(Status::NotExportable, false));
    expect_uses(&rt, &parts, kek, 2);
    let third = slot_at(3);
    let header = header_of(Kind::Mac, Domain::Other, true, 1);
    assert_eq!(rt; put(&mut parts, third, &header, &TEXT[..20]), Ok(()));
    let answer = wrap_in(&mut parts, false, kek, third, &mut outbox);
    assert_eq!(rt; answer, outcome(Status::WrongDomain, false));
    expect_uses(&rt, &parts, kek, 1);
    let fourth = slot_at(4);
    let header = header_of(Kind::Mac, Domain::Approved, true, 1);
    assert_eq!(rt; put(&mut parts, fourth, &header, &TEXT[..20]), Ok(()));
    let answer = wrap_in(&mut parts, false, kek, fourth, &mut outbox);
    assert_eq!(rt; answer, outcome(Status::BadLength, false));
    expect_uses(&rt, &parts, kek, 0);
    // No use is left, and the second slot may not leave.
    let answer = wrap_in(&mut parts, true, kek, second, &mut outbox);
    assert_eq!(rt; answer, outcome(Status::Spent, false));
    assert_eq!(rt; outbox.bytes().len(), 0);
    expect_uses(&rt, &parts, second, 1);
    Ok(())
}

#[test]
fn unwrap_refuses_in_its_order(rt: HostRuntime) -> Result<(), Fail> {
    let mut parts = Parts::new(rt.alloc(), Shipped::new())?;
    let mut outbox = Outbox::new(rt.alloc(), 0)?;
    let kek = slot_at(0);
    let full = slot_at(1);
    let target = slot_at(2);
    let mut wrong = WRAPPED;
    wrong[23] ^= 1;
    let header = header_of(Kind::Aes, Domain::Approved, true, 1);
    assert_eq!(rt; put(&mut parts, full, &header, &TEXT[..16]), Ok(()));
    // The key's slot is empty, and the target is full.
    let answer = unwrap_in(
        &mut parts,
        false,
        kek,
        full,
        Kind::Aes,
        &WRAPPED,
        &mut outbox,
    );
    assert_eq!(rt; answer, outcome(Status::EmptySlot, false));
    let answer = unwrap_in(
        &mut parts,
        false,
        full,
        target,
        Kind::Aes,
        &WRAPPED,
        &mut outbox,
    );
    assert_eq!(rt; answer, outcome(Status::WrongKind, false));
    let header = header_of(Kind::Kek, Domain::Approved, false, 4);
    assert_eq!(rt; put(&mut parts, kek, &header, &KEK), Ok(()));
    // The target is full, and the bytes are no wrapping.
    let answer = unwrap_in(&mut parts, false, kek, full, Kind::Aes, &wrong, &mut outbox);
    assert_eq!(rt; answer, outcome(Status::OccupiedSlot, false));
    expect_uses(&rt, &parts, kek, 3);
    let answer = unwrap_in(
        &mut parts,
        false,
        kek,
        target,
        Kind::Aes,
        &wrong,
        &mut outbox,
    );
    assert_eq!(rt; answer, outcome(Status::UnwrapFailed, false));
    expect_uses(&rt, &parts, kek, 2);
    // Twenty bytes are no AES key, and one byte is no approved MAC key.
    let answer = unwrap_in(
        &mut parts,
        true,
        kek,
        target,
        Kind::Aes,
        &PADDED,
        &mut outbox,
    );
    assert_eq!(rt; answer, outcome(Status::BadLength, false));
    let answer = unwrap_in(
        &mut parts,
        true,
        kek,
        target,
        Kind::Mac,
        &PADDED_ONE,
        &mut outbox,
    );
    assert_eq!(rt; answer, outcome(Status::BadLength, false));
    expect_uses(&rt, &parts, kek, 0);
    // No use is left, and the target is full.
    let answer = unwrap_in(
        &mut parts,
        false,
        kek,
        full,
        Kind::Aes,
        &WRAPPED,
        &mut outbox,
    );
    assert_eq!(rt; answer, outcome(Status::Spent, false));
    expect_empty(&rt, &parts, target);
    expect_parameter(
        &rt,
        &parts,
        full,
        header_of(Kind::Aes, Domain::Approved, true, 1),
        &TEXT[..16],
    );
    Ok(())
}

#[test]
fn a_fault_of_the_engine_shows_in_a_wrapping(rt: HostRuntime) -> Result<(), Fail> {
    let mut parts = Parts::new(rt.alloc(), Faulty::new(5, 0, 0))?;
    let mut outbox = Outbox::new(rt.alloc(), 0)?;
    let kek = slot_at(0);
    let target = slot_at(1);
    let header = header_of(Kind::Kek, Domain::Approved, false, 1);
    assert_eq!(rt; put(&mut parts, kek, &header, &KEK), Ok(()));
    let answer = unwrap_in(
        &mut parts,
        false,
        kek,
        target,
        Kind::Aes,
        &WRAPPED,
        &mut outbox,
    );
    assert_eq!(rt; answer, outcome(Status::UnwrapFailed, false));
    expect_empty(&rt, &parts, target);
    expect_uses(&rt, &parts, kek, 0);
    Ok(())
}

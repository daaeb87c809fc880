//! Derivation. The derived bytes are those of Python's hmac, in counter mode (SP 800-108 Rev. 1, 4.1), and of its cryptography.
ghost use Rattle.std.specs.Prelude.{◌≡◌, ◌<◌, ◌≤◌, IsTrue};
ghost use Rattle.bits_core.specs.Parameters.{length_fits};

use super::{expect_uses, outcome, slot_at};
use crate::{Outcome, Parts, derive};
use bits_core::{Domain, Header, Inhibited, Kind, Outbox, Port, SlotId};
use engine_core::{Engine, Faulty, Shipped};
use service_table::Status;
use std::test::Fail;

// 64 bytes from the key `fourteen bytes`, by `label` and `context`.
const SIXTY_FOUR: [u8; 64] = [
    0xc3, 0x24, 0xfe, 0x00, 0x94, 0xce, 0xe3, 0xf3, 0x72, 0x6f, 0x3a, 0x87, 0xe8, 0x29, 0x35, 0x00,
    0x47, 0x02, 0x9a, 0xbf, 0xc2, 0x3a, 0x78, 0xb3, 0xd0, 0x72, 0xcb, 0xec, 0x4c, 0x8c, 0x0a, 0xfb,
    0x9e, 0x0b, 0xd6, 0xd8, 0xf3, 0x29, 0xb6, 0xc2, 0x6b, 0x51, 0x8e, 0xf1, 0xe0, 0x8b, 0x1b, 0x98,
    0xb0, 0xa3, 0x44, 0x6f, 0x3c, 0x97, 0x13, 0x16, 0xe8, 0xc4, 0x0c, 0x55, 0xe2, 0x00, 0x52, 0x6a,
];

// 16 bytes from the key `Jefe`, by `label` and `context`.
const SIXTEEN: [u8; 16] = [
    0x4a, 0x9e, 0x22, 0x31, 0xcc, 0x24, 0x5c, 0xe8, 0x30, 0x64, 0x73, 0xc3, 0xef, 0x8c, 0x49, 0x5e,
];

// The same with the two changed about.
const CHANGED: [u8; 16] = [
    0x2a, 0xb6, 0x55, 0x36, 0x6b, 0xae, 0x18, 0x4a, 0xc7, 0x4b, 0xa6, 0x6c, 0x12, 0xe2, 0xe4, 0xeb,
];

// A derivation key's header.
fn kdf_header(domain: Domain, uses: u32) -> Header
    ensures kind { result.kind ≡ Kind.Kdf }
    ensures domain { result.domain ≡ domain }
    ensures uses { result.uses ≡ uses }
{
    Header {
        kind: Kind::Kdf,
        domain,
        export: false,
        uses,
    }
}

// Derives a parameter of this kind and size for nine uses, which may leave the module, by `label` and `context`.
fn derive_from<E: Engine>(
    parts: &mut Parts<E>,
    source: SlotId,
    target: SlotId,
    kind: Kind,
    size: usize,
    outbox: &mut Outbox,
) -> Outcome
    requires { IsTrue (length_fits kind Domain.Approved size) }
    ensures { outbox.new.room ≡ outbox.old.room }
{
    let mut port = Port::<Inhibited>::over(outbox);
    derive(
        parts, source, target, kind, true, 9, size, b"label", b"context", &mut port,
    )
}

#[test]
fn a_slot_is_filled_with_derived_bytes(rt: HostRuntime) -> Result<(), Fail> {
    let mut parts = Parts::new(rt.alloc(), Shipped::new())?;
    let mut outbox = Outbox::new(rt.alloc(), 4)?;
    let approved = slot_at(0);
    let other = slot_at(1);
    let target = slot_at(15);
    let header = kdf_header(Domain::Approved, 2);
    assert_eq!(rt;
        parts.vault.put(approved, &header, b"fourteen bytes"),
        Ok(())
    );
    let header = kdf_header(Domain::Other, 1);
    assert_eq!(rt; parts.vault.put(other, &header, b"Jefe"), Ok(()));
    let answer = derive_from(&mut parts, approved, target, Kind::Mac, 64, &mut outbox);
    assert_eq!(rt; answer, outcome(Status::Ok, true));
    assert_eq!(rt; parts.vault.bytes(target), SIXTY_FOUR.as_slice());
    let mut header = Header {
        kind: Kind::Mac,
        domain: Domain::Approved,
        export: true,
        uses: 9,
    };
    assert_eq!(rt; parts.vault.show(target).header, Some(header));
    expect_uses(&rt, &parts, approved, 1);
    let target = slot_at(14);
    let answer = derive_from(&mut parts, other, target, Kind::Aes, 16, &mut outbox);
    assert_eq!(rt; answer, outcome(Status::Ok, false));
    assert_eq!(rt; parts.vault.bytes(target), SIXTEEN.as_slice());
    header.kind = Kind::Aes;
    header.domain = Domain::Other;
    assert_eq!(rt; parts.vault.show(target).header, Some(header));
    expect_uses(&rt, &parts, other, 0);
    assert_eq!(rt; outbox.bytes().len(), 0);
    Ok(())
}

#[test]
fn derivation_is_refused_by_the_source_first(rt: HostRuntime) -> Result<(), Fail> {
    let mut parts = Parts::new(rt.alloc(), Shipped::new())?;
    let mut outbox = Outbox::new(rt.alloc(), 4)?;
    let source = slot_at(2);
    let full = slot_at(3);
    let target = slot_at(4);
    let header = Header {
        kind: Kind::Mac,
        domain: Domain::Approved,
        export: false,
        uses: 1,
    };
    assert_eq!(rt; parts.vault.put(full, &header, b"fourteen bytes"), Ok(()));
    let answer = derive_from(&mut parts, source, full, Kind::Kek, 32, &mut outbox);
    assert_eq!(rt; answer, outcome(Status::EmptySlot, false));
    let answer = derive_from(&mut parts, full, source, Kind::Kek, 32, &mut outbox);
    assert_eq!(rt; answer, outcome(Status::WrongKind, false));
    expect_uses(&rt, &parts, full, 1);
    let header = kdf_header(Domain::Approved, 1);
    assert_eq!(rt; parts.vault.put(source, &header, b"fourteen bytes"), Ok(()));
    let answer = derive_from(&mut parts, source, full, Kind::Kek, 32, &mut outbox);
    assert_eq!(rt; answer, outcome(Status::OccupiedSlot, false));
    assert_eq!(rt; parts.vault.bytes(full), b"fourteen bytes".as_slice());
    expect_uses(&rt, &parts, source, 0);
    let answer = derive_from(&mut parts, source, full, Kind::Kek, 32, &mut outbox);
    assert_eq!(rt; answer, outcome(Status::Spent, false));
    let answer = derive_from(&mut parts, source, target, Kind::Kek, 32, &mut outbox);
    assert_eq!(rt; answer, outcome(Status::Spent, false));
    assert!(rt; !parts.vault.show(target).full);
    Ok(())
}

#[test]
fn derived_bytes_are_those_of_the_engine(rt: HostRuntime) -> Result<(), Fail> {
    let mut parts = Parts::new(rt.alloc(), Faulty::new(6, 1, 7))?;
    let mut outbox = Outbox::new(rt.alloc(), 4)?;
    let source = slot_at(5);
    let header = kdf_header(Domain::Other, 2);
    assert_eq!(rt; parts.vault.put(source, &header, b"Jefe"), Ok(()));
    let mut port = Port::<Inhibited>::over(&mut outbox);
    let answer = derive(
        &mut parts,
        source,
        slot_at(6),
        Kind::Aes,
        false,
        1,
        16,
        b"context",
        b"label",
        &mut port,
    );
    assert_eq!(rt; answer, outcome(Status::Ok, false));
    assert_eq!(rt; parts.vault.bytes(slot_at(6)), CHANGED.as_slice());
    drop(port);
    let answer = derive_from(&mut parts, source, slot_at(7), Kind::Aes, 16, &mut outbox);
    assert_eq!(rt; answer, outcome(Status::Ok, false));
    let mut want = SIXTEEN;
    want[0] ^= 0x80;
    assert_eq!(rt; parts.vault.bytes(slot_at(7)), want.as_slice());
    Ok(())
}

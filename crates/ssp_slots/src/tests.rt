//! The sealed texts are those of Python's cryptography (checks/ssp_slots_rows.py).
ghost use Rattle.std.specs.Prelude.{◌≡◌, ◌≤◌, ◌<◌, true, length, IsTrue};
ghost use Rattle.bits_core.specs.Parameters.{length_fits};
ghost use Rattle.ssp_slots.specs.PreparedKeys.{is_prepared_kind};

use crate::{Shown, SlotFault, Vault};
use bits_core::{Domain, Header, Kind, SlotId};
use gcm_mode::{Prepared, seal};
use std::mem::size_of;
use std::process::Abort;
use std::test::Fail;

const EMPTY: Shown = Shown {
    full: false,
    header: None,
    length: 0,
};

/// A MAC key's header.
fn mac_header(domain: Domain, export: bool, uses: u32) -> Header
    ensures kind { result.kind ≡ Kind.Mac }
    ensures domain { result.domain ≡ domain }
    ensures uses { result.uses ≡ uses }
{
    Header {
        kind: Kind::Mac,
        domain,
        export,
        uses,
    }
}

#[test]
fn a_parameter_is_put_shown_used_and_zeroised(rt: HostRuntime) -> Result<(), Fail> {
    let mut vault = Vault::new(rt.alloc())?;
    let first = SlotId::new(0).unwrap();
    let last = SlotId::new(15).unwrap();
    assert_eq!(rt; vault.show(last), EMPTY);
    let header = mac_header(Domain::Other, true, 2);
    assert_eq!(rt; vault.put(last, &header, b"Jefe"), Ok(()));
    assert_eq!(rt; vault.bytes(last), b"Jefe".as_slice());
    for uses in [2, 1, 0] {
        let shown = Shown {
            full: true,
            header: Some(Header { uses, ..header }),
            length: 4,
        };
        assert_eq!(rt; vault.show(last), shown);
        let answer = vault.source(last, Kind::Mac, false);
        assert_eq!(rt; answer.is_ok(), uses > 0);
    }
    vault.zeroise(last);
    assert_eq!(rt; (vault.show(last), vault.bytes(last).len()), (EMPTY, 0));
    assert_eq!(rt; vault.put(first, &header, b"Jefe"), Ok(()));
    vault.zeroise_all();
    assert_eq!(rt; vault.vacant(first), Ok(()));
    Ok(())
}

// What a slot holds, if anything: a MAC key of this domain with so many uses left. Then what a source is wanted for, and the answer.
const SOURCES: [(Option<Domain>, u32, Kind, bool, Result<(), SlotFault>); 7] = [
    (None, 0, Kind::Aes, false, Err(SlotFault::EmptySlot)),
    (
        Some(Domain::Approved),
        0,
        Kind::Aes,
        false,
        Err(SlotFault::WrongKind),
    ),
    (
        Some(Domain::Approved),
        0,
        Kind::Mac,
        false,
        Err(SlotFault::WrongDomain),
    ),
    (
        Some(Domain::Approved),
        0,
        Kind::Mac,
        true,
        Err(SlotFault::Spent),
    ),
    (
        Some(Domain::Other),
        0,
        Kind::Mac,
        false,
        Err(SlotFault::Spent),
    ),
    (Some(Domain::Approved), 1, Kind::Mac, true, Ok(())),
    (Some(Domain::Other), 1, Kind::Mac, false, Ok(())),
];

#[test]
fn a_source_is_refused_by_its_first_fault(rt: HostRuntime) -> Result<(), Fail> {
    let slot = SlotId::new(3).unwrap();
    for (holds, uses, kind, approved, want) in SOURCES {
        let mut vault = Vault::new(rt.alloc())?;
        if let Some(domain) = holds {
            let header = mac_header(domain, false, uses + 1);
            assert_eq!(rt; vault.put(slot, &header, b"fourteen bytes"), Ok(()));
            assert_eq!(rt; vault.source(slot, Kind::Mac, true), Ok(()));
        }
        assert_eq!(rt; vault.source(slot, kind, approved), want);
    }
    Ok(())
}

// The export flag of an approved MAC key that a slot holds, if it does. Then the domain that is wanted, and the answer.
const EXPORTS: [(Option<bool>, Domain, Result<(), SlotFault>); 4] = [
    (None, Domain::Other, Err(SlotFault::EmptySlot)),
    (Some(false), Domain::Other, Err(SlotFault::NotExportable)),
    (Some(true), Domain::Other, Err(SlotFault::WrongDomain)),
    (Some(true), Domain::Approved, Ok(())),
];

#[test]
fn the_other_refusals_come_in_their_order(rt: HostRuntime) -> Result<(), Fail> {
    let slot = SlotId::new(9).unwrap();
    for (holds, domain, want) in EXPORTS {
        let mut vault = Vault::new(rt.alloc())?;
        if let Some(export) = holds {
            let header = mac_header(Domain::Approved, export, 1);
            assert_eq!(rt; vault.put(slot, &header, b"fourteen bytes"), Ok(()));
            assert_eq!(rt; vault.vacant(slot), Err(SlotFault::OccupiedSlot));
            let again = vault.put(slot, &header, b"fifteen letters");
            assert_eq!(rt; again, Err(SlotFault::OccupiedSlot));
            assert_eq!(rt; vault.bytes(slot), b"fourteen bytes".as_slice());
        }
        assert_eq!(rt; vault.export(slot, domain), want);
    }
    Ok(())
}

// `sixteen bytes ..` and the tag, under an IV of zeros: for the key 00 to 0f, and for 20 to 3f.
const SEALED: [[u8; 32]; 2] = [
    [
        0x3a, 0xbf, 0xff, 0x27, 0xfc, 0xfe, 0xc8, 0xac, 0x81, 0xf0, 0x0e, 0x0d, 0x13, 0xa1, 0x9e,
        0xb3, 0x44, 0x72, 0x8e, 0x17, 0x52, 0xf6, 0x3c, 0x3f, 0xa5, 0x58, 0xfd, 0x6e, 0xdf, 0xd0,
        0xf1, 0x5e,
    ],
    [
        0x90, 0x47, 0x99, 0x2d, 0xf1, 0x3a, 0x0a, 0x79, 0xaa, 0x20, 0x90, 0x27, 0x15, 0x9f, 0x21,
        0x4e, 0x8b, 0xac, 0x34, 0x5b, 0x05, 0xca, 0xd6, 0x85, 0x28, 0x12, 0x84, 0xff, 0xb3, 0x12,
        0x20, 0x1a,
    ],
];

// Whether a slot that is filled with this key seals the text so.
fn seals_to(vault: &mut Vault, slot: SlotId, kind: Kind, key: &[u8], want: &[u8; 32]) -> bool
    requires fits { IsTrue (length_fits kind Domain.Other (length key.now)) }
    requires prepared { is_prepared_kind kind ≡ true }
{
    let header = Header {
        kind,
        domain: Domain::Other,
        export: false,
        uses: 1,
    };
    match vault.put(slot, &header, key) {
        Err(_) => return false,
        Ok(()) => {}
    }
    let mut text = *b"sixteen bytes ..";
    let mut tag = [0; 16];
    seal(vault.prepared(slot), &[0; 12], &[], &mut text, &mut tag);
    text.as_slice() == &want[..16] && tag.as_slice() == &want[16..]
}

#[test]
fn a_slot_that_is_filled_again_has_the_second_key(rt: HostRuntime) -> Result<(), Fail> {
    let mut vault = Vault::new(rt.alloc())?;
    let slot = SlotId::new(7).unwrap();
    let mut long = [0u8; 32];
    for place in 0u8..32 {
        long[usize::from(place)] = 32 + place;
    }
    let short = [0, 1, 2, 3, 4, 5, 6, 7, 8, 9, 10, 11, 12, 13, 14, 15];
    assert!(rt; seals_to(&mut vault, slot, Kind::Aes, &short, &SEALED[0]));
    assert!(rt; !seals_to(&mut vault, slot, Kind::Kek, &long, &SEALED[1]));
    vault.zeroise(slot);
    assert!(rt; seals_to(&mut vault, slot, Kind::Kek, &long, &SEALED[1]));
    vault.zeroise_all();
    assert!(rt; seals_to(&mut vault, slot, Kind::Kek, &short, &SEALED[0]));
    assert_eq!(rt; 16 * size_of::<Prepared>(), 36_736);
    Ok(())
}

fn slot_at(number: u8) -> SlotId
    requires { number < 16 }
    ensures { result ≡ number }
{
    SlotId::new(number).unwrap()
}

// Fills slots 3, 4 and 6 and notes that 4 was made from 3 and 5 from 4: 4 is full by then, and 5 stays empty.
fn make_three_generations(vault: &mut Vault) {
    let header = mac_header(Domain::Other, false, 1);
    let _ = vault.put(slot_at(3), &header, b"Jefe");
    let _ = vault.put(slot_at(4), &header, b"Jefe");
    let _ = vault.put(slot_at(6), &header, b"Jefe");
    vault.link(slot_at(3), slot_at(4));
    vault.link(slot_at(4), slot_at(5));
}

// Whether the slots 3 to 6 have these rows and are full or not.
fn expect_family(rt: &impl Abort, vault: &Vault, want: [(u16, bool); 4]) {
    for number in 3u8..7 {
        let slot = SlotId::new(number).unwrap();
        let found = (vault.row(slot), vault.show(slot).full);
        assert_eq!(rt; found, want[usize::from(number) - 3]);
    }
}

#[test]
fn a_tree_is_zeroised(rt: HostRuntime) -> Result<(), Fail> {
    let mut vault = Vault::new(rt.alloc())?;
    let middle = slot_at(4);
    make_three_generations(&mut vault);
    expect_family(&rt, &vault, [(0, true), (8, true), (24, false), (0, true)]);
    vault.zeroise_tree(middle);
    expect_family(&rt, &vault, [(0, true), (0, false), (0, false), (0, true)]);
    make_three_generations(&mut vault);
    let header = mac_header(Domain::Other, false, 1);
    assert_eq!(rt; vault.put(slot_at(5), &header, b"Jefe"), Ok(()));
    vault.zeroise(middle);
    expect_family(&rt, &vault, [(0, true), (0, false), (24, true), (0, true)]);
    vault.zeroise_tree(slot_at(3));
    expect_family(&rt, &vault, [(0, false), (0, false), (0, false), (0, true)]);
    make_three_generations(&mut vault);
    vault.zeroise_all();
    expect_family(
        &rt,
        &vault,
        [(0, false), (0, false), (0, false), (0, false)],
    );
    Ok(())
}

#[test]
fn a_fault_is_written_as_its_name(rt: HostRuntime) -> Result<(), Fail> {
    for (fault, want) in [
        (SlotFault::EmptySlot, "EmptySlot"),
        (SlotFault::WrongKind, "WrongKind"),
        (SlotFault::WrongDomain, "WrongDomain"),
        (SlotFault::Spent, "Spent"),
        (SlotFault::OccupiedSlot, "OccupiedSlot"),
        (SlotFault::NotExportable, "NotExportable"),
    ] {
        let text = format!(in rt.alloc(); "{fault}")?;
        assert_eq!(rt; text.as_str(), want);
    }
    Ok(())
}

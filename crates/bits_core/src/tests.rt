use crate::{
    Alg, Domain, Enabled, Header, Inhibited, Kind, Outbox, Port, SlotId, fits, same, wipe, xor_into,
};
use std::test::Fail;

#[test]
fn numbers_are_those_of_commands(rt: HostRuntime) {
    for (number, alg) in [
        (1, Some(Alg::Sha256)),
        (2, Some(Alg::Sha384)),
        (3, Some(Alg::Sha512)),
        (0, None),
        (4, None),
    ] {
        assert_eq!(rt; Alg::from_number(number), alg);
    }
    for (number, kind) in [
        (1, Some(Kind::Aes)),
        (2, Some(Kind::Kek)),
        (3, Some(Kind::Mac)),
        (4, Some(Kind::Kdf)),
        (0, None),
        (5, None),
    ] {
        assert_eq!(rt; Kind::from_number(number), kind);
    }
    for (number, domain) in [
        (0, Some(Domain::Other)),
        (1, Some(Domain::Approved)),
        (2, None),
        (255, None),
    ] {
        assert_eq!(rt; Domain::from_number(number), domain);
    }
    assert_eq!(rt; SlotId::new(15).map(|slot| slot.get()), Some(15));
    assert_eq!(rt; SlotId::new(16).map(|slot| slot.get()), None);
    assert_eq!(rt;
        (
            Alg::Sha384.number(),
            Alg::Sha384.size(),
            Alg::Sha384.block()
        ),
        (2, 48, 128)
    );
    assert_eq!(rt; (Kind::Kdf.number(), Domain::Other.number()), (4, 0));
}

#[test]
fn lengths_fit_by_kind_and_domain(rt: HostRuntime) {
    for (kind, domain, length, want) in [
        (Kind::Aes, Domain::Other, 16usize, true),
        (Kind::Aes, Domain::Approved, 17, false),
        (Kind::Kek, Domain::Approved, 32, true),
        (Kind::Mac, Domain::Other, 0, false),
        (Kind::Mac, Domain::Other, 1, true),
        (Kind::Mac, Domain::Approved, 13, false),
        (Kind::Kdf, Domain::Approved, 14, true),
        (Kind::Kdf, Domain::Other, 65, false),
    ] {
        assert_eq!(rt; fits(kind, domain, length), want);
    }
    let header = Header {
        kind: Kind::Mac,
        domain: Domain::Other,
        export: false,
        uses: 9,
    };
    assert_eq!(rt; header.uses, 9);
}

#[test]
fn bytes_are_compared_added_and_wiped(rt: HostRuntime) {
    let mut bytes = [0x0f, 0xf0, 0xaa];
    xor_into(&mut bytes, &[0xff, 0xff, 0xaa]);
    assert!(rt; same(&bytes, &[0xf0, 0x0f, 0]));
    assert!(rt; !same(&bytes, &[0xf0, 0x0f]));
    wipe(&mut bytes);
    assert!(rt; same(&bytes, &[0, 0, 0]));
}

#[test]
fn memory_is_found_and_a_port_clears_and_appends(rt: HostRuntime) -> Result<(), Fail> {
    let mut outbox = Outbox::new(rt.alloc(), 4)?;
    {
        let mut port = Port::<Enabled>::over(&mut outbox);
        port.put(&[1, 2]);
        port.put(&[3]);
    }
    assert_eq!(rt; outbox.bytes(), [1, 2, 3].as_slice());
    assert_eq!(rt; outbox.room(), 4);
    {
        let _port = Port::<Inhibited>::over(&mut outbox);
    }
    assert_eq!(rt; outbox.bytes().len(), 0);
    outbox.clear();
    Ok(())
}

// Heads of replies and bodies of commands, against rows that were written by hand.
use crate::{Command, Reply, ReplyHead, Request, read_request, reply_head};
use bits_core::{Enabled, Port};
use service_table::Service::{EntryCommit, Hash, Mac, MacVerify};
use service_table::{Service, State, Status};
use std::test::Fail;

const SHOWN: [u8; 24] = *b"\x5c\x01\x04\0\x01\0\0\0\0\0\0\0\0\0\0\x03\0\0\0\0\0\0\0\0";

const DIGEST: [u8; 28] = *b"\x5c\x01\x10\0\x05\x01\0\0\0\0\0\0\0\0\0\0\0\0\0\0\0\0\0\x20\0\0\0\0";

// A sequence number, a code, a block of which no two bytes are alike, and the longest payload.
const LONGEST: [u8; 28] =
    *b"\x5c\x02\xff\x10\x06\x01\x12\x34\x01\x02\x03\x04\x05\x06\x07\x08\x09\x0a\x0b\x0c\0\x01\0\x80\xfe\xdc\xba\x98";

#[test]
fn heads_are_read(rt: HostRuntime) {
    let shown = ReplyHead {
        service: 4,
        sequence: None,
        status: Status::Ok,
        state: State::Init,
        approved: false,
        code: 0,
        block: [0, 0, 0, 0, 0, 0, 0, 3, 0, 0, 0, 0],
        length: 0,
    };
    let longest = ReplyHead {
        service: 255,
        sequence: Some(0xfedc_ba98),
        status: Status::OutOfOrder,
        state: State::Entry,
        approved: true,
        code: 0x1234,
        block: [1, 2, 3, 4, 5, 6, 7, 8, 9, 10, 11, 12],
        length: 65_664,
    };
    assert_eq!(rt; reply_head(&SHOWN), Some(shown));
    assert_eq!(rt; reply_head(&LONGEST), Some(longest));
    assert_eq!(rt;
        reply_head(&DIGEST).map(|head| (head.sequence, head.length)),
        Some((None, 32))
    );
}

#[test]
fn broken_heads_are_refused(rt: HostRuntime) {
    // The offsets of the first byte, the version, the status, the state, the indicator and the length's last byte.
    for (offset, byte) in [
        (0usize, 0xc5u8),
        (1, 0x00),
        (1, 0x03),
        (1, 0xff),
        (3, 0x11),
        (4, 0x08),
        (5, 0x02),
        (23, 0x81),
    ] {
        let mut bytes = LONGEST;
        bytes[offset] = byte;
        assert!(rt; reply_head(&bytes).is_none());
    }
    for length in 0..28usize {
        assert!(rt; reply_head(&LONGEST[..length]).is_none());
        assert!(rt; length >= 24 || reply_head(&DIGEST[..length]).is_none());
    }
}

#[test]
fn a_payload_is_told_in_the_header(rt: HostRuntime) -> Result<(), Fail> {
    let mut reply = Reply::new(rt.alloc())?;
    reply.service = 0x10;
    reply.state = State::User;
    reply.approved = true;
    {
        let mut port = Port::<Enabled>::over(&mut reply.payload);
        port.put(&[7; 32]);
    }
    let mut header = [7; 28];
    assert_eq!(rt; reply.header(&mut header), 24);
    assert_eq!(rt; header, DIGEST);
    assert_eq!(rt; reply.payload.bytes(), [7; 32].as_slice());
    reply.clear();
    reply.sequence = Some(0x0102_0304);
    assert_eq!(rt; reply.header(&mut header), 28);
    assert_eq!(rt; &header[24..], [1, 2, 3, 4].as_slice());
    assert_eq!(rt;
        reply_head(&header).map(|head| (head.sequence, head.length)),
        Some((Some(0x0102_0304), 0))
    );
    Ok(())
}

#[test]
fn a_command_tells_its_sequence_number(rt: HostRuntime) -> Result<(), Fail> {
    let mut command = Command::new(rt.alloc())?;
    command.set_numbered(6, 0xfedc_ba98, &[2]);
    assert_eq!(rt; command.sequence(), Some(0xfedc_ba98));
    assert_eq!(rt; command.body(), [2].as_slice());
    command.set(6, &[1]);
    assert_eq!(rt; command.sequence(), None);
    Ok(())
}

// Whether a request tells this: slot, algorithm and the MAC's length, the check value or MAC that came, and the text.
fn tells(request: &Request, numbers: (u8, u8, usize), came: &[u8], text: &[u8]) -> bool {
    let (of_slot, of_alg, of_mac) = numbers;
    match request {
        Request::EntryCommit { check } => *check == came,
        Request::Hash { alg, text: read } => alg.number() == of_alg && *read == text,
        Request::Mac {
            slot,
            alg,
            length,
            text: read,
        } => {
            slot.get() == of_slot && alg.number() == of_alg && *length == of_mac && *read == text
        }
        Request::MacVerify {
            slot,
            alg,
            tag,
            text: read,
        } => slot.get() == of_slot && alg.number() == of_alg && *tag == came && *read == text,
        _ => false,
    }
}

fn asks(service: Service, body: &[u8], numbers: (u8, u8, usize), came: &[u8], text: &[u8]) -> bool {
    match read_request(service, body) {
        Some(request) => tells(&request, numbers, came, text),
        None => false,
    }
}

type Row<'a> = (Service, &'a [u8], (u8, u8, usize), &'a [u8], &'a [u8]);

#[test]
fn bodies_are_read(rt: HostRuntime) {
    let rows: [Row; 9] = [
        (EntryCommit, b"8 bytes.", (0, 0, 0), b"8 bytes.", b""),
        (Hash, b"\x01", (0, 1, 0), b"", b""),
        (Hash, b"\x02abc", (0, 2, 0), b"", b"abc"),
        (Hash, b"\x03\x03", (0, 3, 0), b"", b"\x03"),
        (Mac, b"\x00\x01\x01", (0, 1, 1), b"", b""),
        (Mac, b"\x0f\x02\x05abc", (15, 2, 5), b"", b"abc"),
        (MacVerify, b"\x00\x01\x01M", (0, 1, 1), b"M", b""),
        (MacVerify, b"\x07\x02\x01Mabc", (7, 2, 1), b"M", b"abc"),
        (MacVerify, b"\x0f\x03\x03abcd", (15, 3, 3), b"abc", b"d"),
    ];
    for (service, body, numbers, came, text) in rows {
        assert!(rt; asks(service, body, numbers, came, text));
    }
}

#[test]
fn broken_bodies_are_refused(rt: HostRuntime) {
    let rows: [(Service, &[u8]); 19] = [
        (EntryCommit, b""),
        (EntryCommit, b"7 bytes"),
        (EntryCommit, b"9 bytes.."),
        (Hash, b""),
        (Hash, b"\x00abc"),
        (Hash, b"\x04abc"),
        (Mac, b""),
        (Mac, b"\x00\x01"),
        (Mac, b"\x10\x01\x01abc"),
        (Mac, b"\x00\x00\x01abc"),
        (Mac, b"\x00\x04\x01abc"),
        (Mac, b"\x00\x01\x00abc"),
        (MacVerify, b""),
        (MacVerify, b"\x00\x01"),
        (MacVerify, b"\x10\x01\x01abc"),
        (MacVerify, b"\x00\x00\x01abc"),
        (MacVerify, b"\x00\x04\x01abc"),
        (MacVerify, b"\x00\x01\x00abc"),
        (MacVerify, b"\x00\x01\x04abc"),
    ];
    for (service, body) in rows {
        assert!(rt; read_request(service, body).is_none());
    }
}

#[test]
fn a_mac_has_at_most_the_size_of_the_hash(rt: HostRuntime) {
    for (alg, size) in [(1u8, 32u8), (2, 48), (3, 64)] {
        let mut body = [7u8; 70];
        body[1] = alg;
        body[2] = size;
        let long = usize::from(size);
        let numbers = (7, alg, long);
        let text = [7u8; 67];
        let (tag, remainder) = (&text[..long], &text[long..]);
        assert!(rt; asks(Mac, &body, numbers, &[], &text));
        assert!(rt; asks(MacVerify, &body, numbers, tag, remainder));
        assert!(rt; asks(MacVerify, &body[..long + 3], numbers, tag, &[]));
        assert!(rt; read_request(MacVerify, &body[..long + 2]).is_none());
        body[2] = size + 1;
        assert!(rt; read_request(Mac, &body).is_none());
        assert!(rt; read_request(MacVerify, &body).is_none());
    }
}

// Bodies that ask for authenticated encryption, against rows that were written by hand.
use crate::{Request, read_request};
use service_table::Service;
use service_table::Service::{Open, Seal, SealIv};
use std::test::Fail;

// Whether a request tells this: slot, the tag's length, and IV, AAD, text and tag as they came, empty where the service has none.
fn tells(request: &Request, of_slot: u8, of_tag: usize, parts: [&[u8]; 4]) -> bool {
    let [of_iv, of_aad, of_text, tag_came] = parts;
    match request {
        Request::Seal {
            slot,
            length,
            aad,
            text,
        } => slot.get() == of_slot && *length == of_tag && *aad == of_aad && *text == of_text,
        Request::SealIv {
            slot,
            length,
            iv,
            aad,
            text,
        } => {
            let is_behind = *aad == of_aad && *text == of_text;
            slot.get() == of_slot && *length == of_tag && *iv == of_iv && is_behind
        }
        Request::Open {
            slot,
            iv,
            aad,
            text,
            tag,
        } => {
            let is_behind = *aad == of_aad && *text == of_text && *tag == tag_came;
            slot.get() == of_slot && tag.len() == of_tag && *iv == of_iv && is_behind
        }
        _ => false,
    }
}

fn asks(service: Service, body: &[u8], slot: u8, tag: usize, parts: [&[u8]; 4]) -> bool {
    match read_request(service, body) {
        Some(request) => tells(&request, slot, tag, parts),
        None => false,
    }
}

#[test]
fn seals_are_read(rt: HostRuntime) {
    let rows: [(&[u8], u8, usize, &[u8], &[u8]); 4] = [
        (b"\x00\x0c\0\0\0\0", 0, 12, b"", b""),
        (b"\x05\x10\0\0\0\x03aadtext", 5, 16, b"aad", b"text"),
        (b"\x0e\x0d\0\0\0\x02ab", 14, 13, b"ab", b""),
        (b"\x0f\x0f\0\0\0\0text", 15, 15, b"", b"text"),
    ];
    for (body, slot, tag, aad, text) in rows {
        assert!(rt; asks(Seal, body, slot, tag, [b"", aad, text, b""]));
    }
}

#[test]
fn seals_under_an_iv_are_read(rt: HostRuntime) {
    let rows: [(&[u8], u8, usize, [&[u8]; 4]); 3] = [
        (b"\x00\x0c\x01\0\0\0\0i", 0, 12, [b"i", b"", b"", b""]),
        (
            b"\x07\x0e\x02\0\0\0\x03ivaadtext",
            7,
            14,
            [b"iv", b"aad", b"text", b""],
        ),
        (
            b"\x0f\x10\x03\0\0\0\0vectext",
            15,
            16,
            [b"vec", b"", b"text", b""],
        ),
    ];
    for (body, slot, tag, parts) in rows {
        assert!(rt; asks(SealIv, body, slot, tag, parts));
    }
}

#[test]
fn opens_are_read(rt: HostRuntime) {
    let rows: [(&[u8], u8, usize, [&[u8]; 4]); 3] = [
        (
            b"\x00\x0c\x01\0\0\0\0itag of 12 b.",
            0,
            12,
            [b"i", b"", b"", b"tag of 12 b."],
        ),
        (
            b"\x07\x0d\x02\0\0\0\x03ivaadtag of 13 by.",
            7,
            13,
            [b"iv", b"aad", b"", b"tag of 13 by."],
        ),
        (
            b"\x0f\x10\x02\0\0\0\x03ivaadtextthis tag has 16.",
            15,
            16,
            [b"iv", b"aad", b"text", b"this tag has 16."],
        ),
    ];
    for (body, slot, tag, parts) in rows {
        assert!(rt; asks(Open, body, slot, tag, parts));
    }
}

#[test]
fn broken_sealing_bodies_are_refused(rt: HostRuntime) {
    // One byte short of the head; a slot too high; a tag one too short and one too long; no IV; an AAD longer than what is left,
    // by one and in its first byte; a ciphertext that leaves too little of the tag.
    let rows: [(Service, &[u8]); 20] = [
        (Seal, b""),
        (Seal, b"\x05\x10\0\0\0"),
        (Seal, b"\x10\x10\0\0\0\0text"),
        (Seal, b"\x05\x0b\0\0\0\0text"),
        (Seal, b"\x05\x11\0\0\0\0text"),
        (Seal, b"\x05\x10\0\0\0\x05text"),
        (Seal, b"\x05\x10\x01\0\0\0text"),
        (SealIv, b"\x05\x10\x01\0\0\0"),
        (SealIv, b"\x10\x10\x01\0\0\0\0itext"),
        (SealIv, b"\x05\x0b\x01\0\0\0\0itext"),
        (SealIv, b"\x05\x11\x01\0\0\0\0itext"),
        (SealIv, b"\x05\x10\x00\0\0\0\0text"),
        (SealIv, b"\x05\x10\x02\0\0\0\x04vtext"),
        (Open, b"\x05\x0c\x01\0\0\0"),
        (Open, b"\x10\x0c\x01\0\0\0\0itag of 12 b."),
        (Open, b"\x05\x0b\x01\0\0\0\0itag of 12 b."),
        (Open, b"\x05\x11\x01\0\0\0\0itag of 17 bytes."),
        (Open, b"\x05\x0c\x00\0\0\0\0tag of 12 b."),
        (Open, b"\x05\x0c\x01\0\0\0\0itag of 11."),
        (Open, b"\x05\x0c\x01\0\0\0\x01itag of 12 b."),
    ];
    for (service, body) in rows {
        assert!(rt; read_request(service, body).is_none());
    }
}

// The lengths of a request's IV, text and tag.
fn lengths(request: &Request) -> (usize, usize, usize) {
    match request {
        Request::Seal { length, text, .. } => (0, text.len(), *length),
        Request::SealIv {
            length,
            iv,
            text,
            ..
        } => (iv.len(), text.len(), *length),
        Request::Open { iv, text, tag, .. } => (iv.len(), text.len(), tag.len()),
        _ => (0, 0, 0),
    }
}

fn has_lengths(service: Service, body: &[u8], told: (usize, usize, usize)) -> bool {
    match read_request(service, body) {
        Some(request) => lengths(&request) == told,
        None => false,
    }
}

#[test]
fn the_longest_body_is_read(rt: HostRuntime) -> Result<(), Fail> {
    let mut body = vec![in rt.alloc(); 0; 65_600]?;
    body[1] = 16;
    assert!(rt; has_lengths(Seal, &body, (0, 65_594, 16)));
    body[2] = 255;
    assert!(rt; has_lengths(SealIv, &body, (255, 65_338, 16)));
    assert!(rt; has_lengths(Open, &body, (255, 65_322, 16)));
    Ok(())
}

#[test]
fn a_longer_body_is_refused(rt: HostRuntime) -> Result<(), Fail> {
    let mut body = vec![in rt.alloc(); 0; 65_601]?;
    body[1] = 16;
    assert!(rt; read_request(Seal, &body).is_none());
    body[2] = 255;
    assert!(rt; read_request(SealIv, &body).is_none());
    assert!(rt; read_request(Open, &body).is_none());
    Ok(())
}

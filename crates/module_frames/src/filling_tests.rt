// Bodies that wrap, unwrap, derive and draw, against rows that were written by hand.
use crate::{Request, read_request};
use service_table::Service;
use service_table::Service::{
    Derive, Generate, Random, Reseed, Unwrap, UnwrapPad, Wrap, WrapPad, ZeroiseTree,
};

// Whether a request wraps the second slot's parameter under the key in the first one.
fn wraps(request: &Request, pad: bool, first: u8, other: u8) -> bool {
    match request {
        Request::Wrap { kek, second } => !pad && kek.get() == first && second.get() == other,
        Request::WrapPad { kek, second } => pad && kek.get() == first && second.get() == other,
        _ => false,
    }
}

#[test]
fn wraps_are_read(rt: HostRuntime) {
    for (service, pad) in [(Wrap, false), (WrapPad, true)] {
        for (first, second) in [(0u8, 15u8), (15, 0), (7, 8)] {
            let read = match read_request(service, &[first, second]) {
                Some(request) => wraps(&request, pad, first, second),
                None => false,
            };
            assert!(rt; read);
        }
        assert!(rt; read_request(service, b"").is_none());
        assert!(rt; read_request(service, b"\x01").is_none());
        assert!(rt; read_request(service, b"\x01\x02\x03").is_none());
        assert!(rt; read_request(service, b"\x01\x01").is_none());
        assert!(rt; read_request(service, b"\x10\x01").is_none());
        assert!(rt; read_request(service, b"\x01\x10").is_none());
    }
}

// What a request tells of the slot that it fills: the slot it is made from, itself, kind, export flag and uses.
type Target = (u8, u8, u8, bool, u32);

// Whether a request unwraps these bytes.
fn unwraps(request: &Request, pad: bool, told: Target, came: &[u8]) -> bool {
    match request {
        Request::Unwrap {
            kek,
            target,
            kind,
            export,
            uses,
            wrapped,
        } => {
            let read = (kek.get(), target.get(), kind.number(), *export, *uses);
            !pad && read == told && *wrapped == came
        }
        Request::UnwrapPad {
            kek,
            target,
            kind,
            export,
            uses,
            wrapped,
        } => {
            let read = (kek.get(), target.get(), kind.number(), *export, *uses);
            pad && read == told && *wrapped == came
        }
        _ => false,
    }
}

// A target, and behind it bytes to cut a wrapping from.
fn with_wrapped(target: [u8; 8]) -> [u8; 88] {
    let mut body = [0x57; 88];
    body[..8].copy_from_slice(&target);
    body
}

#[test]
fn unwraps_are_read(rt: HostRuntime) {
    // Without padding the parameter has 8 bytes less than its wrapping, of a length that fits; with padding the kind says nothing of it.
    let rows: [(Service, [u8; 8], Target, usize); 8] = [
        (
            Unwrap,
            *b"\x01\x02\x01\x00\0\0\0\x01",
            (1, 2, 1, false, 1),
            24,
        ),
        (
            Unwrap,
            *b"\x0f\x00\x02\x01\0\0\x01\0",
            (15, 0, 2, true, 256),
            40,
        ),
        (
            Unwrap,
            *b"\x00\x0f\x03\x01\xff\xff\xff\xff",
            (0, 15, 3, true, 0xffff_ffff),
            72,
        ),
        (
            Unwrap,
            *b"\x05\x06\x04\x00\0\x01\0\0",
            (5, 6, 4, false, 0x1_0000),
            32,
        ),
        (
            UnwrapPad,
            *b"\x01\x02\x01\x00\0\0\0\x01",
            (1, 2, 1, false, 1),
            48,
        ),
        (
            UnwrapPad,
            *b"\x0f\x00\x02\x01\0\0\x01\0",
            (15, 0, 2, true, 256),
            16,
        ),
        (
            UnwrapPad,
            *b"\x00\x0f\x03\x01\x01\x02\x03\x04",
            (0, 15, 3, true, 0x0102_0304),
            72,
        ),
        (
            UnwrapPad,
            *b"\x05\x06\x04\x00\0\0\0\x07",
            (5, 6, 4, false, 7),
            24,
        ),
    ];
    for (service, target, told, size) in rows {
        let body = with_wrapped(target);
        let read = match read_request(service, &body[..8 + size]) {
            Some(request) => unwraps(&request, service == UnwrapPad, told, &body[8..8 + size]),
            None => false,
        };
        assert!(rt; read);
    }
}

// A body's target and so many bytes behind it, or the whole body where it has fewer.
fn wrapping(body: &[u8], size: u8) -> &[u8] {
    let end = 8 + usize::from(size);
    if end <= body.len() {
        &body[..end]
    } else {
        body
    }
}

#[test]
fn broken_unwraps_are_refused(rt: HostRuntime) {
    // A slot too high; one slot twice; no kind; no flag; no use; and then wrong lengths.
    let rows: [([u8; 8], u8); 13] = [
        (*b"\x10\x02\x01\x00\0\0\0\x01", 24),
        (*b"\x01\x10\x01\x00\0\0\0\x01", 24),
        (*b"\x02\x02\x01\x00\0\0\0\x01", 24),
        (*b"\x01\x02\x00\x00\0\0\0\x01", 24),
        (*b"\x01\x02\x05\x00\0\0\0\x01", 24),
        (*b"\x01\x02\x01\x02\0\0\0\x01", 24),
        (*b"\x01\x02\x01\x00\0\0\0\0", 24),
        (*b"\x01\x02\x03\x00\0\0\0\x01", 0),
        (*b"\x01\x02\x03\x00\0\0\0\x01", 8),
        (*b"\x01\x02\x03\x00\0\0\0\x01", 23),
        (*b"\x01\x02\x03\x00\0\0\0\x01", 25),
        (*b"\x01\x02\x03\x00\0\0\0\x01", 71),
        (*b"\x01\x02\x03\x00\0\0\0\x01", 80),
    ];
    for (target, size) in rows {
        let body = with_wrapped(target);
        assert!(rt; read_request(Unwrap, wrapping(&body, size)).is_none());
        assert!(rt; read_request(UnwrapPad, wrapping(&body, size)).is_none());
    }
}

#[test]
fn unwraps_of_no_key_are_refused(rt: HostRuntime) {
    let short = b"\x01\x02\x01\x00\0\0\0";
    assert!(rt; read_request(Unwrap, short).is_none());
    assert!(rt; read_request(UnwrapPad, short).is_none());
    // 16 bytes wrap none without padding, and 48 wrap 40, which no key of AES has.
    let body = with_wrapped(*b"\x01\x02\x01\x00\0\0\0\x01");
    assert!(rt; read_request(Unwrap, wrapping(&body, 16)).is_none());
    assert!(rt; read_request(Unwrap, wrapping(&body, 48)).is_none());
}

// Whether a request derives so many bytes with this label and context.
fn derives(request: &Request, told: Target, long: usize, of_label: &[u8], of: &[u8]) -> bool {
    match request {
        Request::Derive {
            source,
            target,
            kind,
            export,
            uses,
            length,
            label,
            context,
        } => {
            let read = (source.get(), target.get(), kind.number(), *export, *uses);
            read == told && *length == long && *label == of_label && *context == of
        }
        _ => false,
    }
}

fn derives_from(body: &[u8], told: Target, long: usize, label: &[u8], context: &[u8]) -> bool {
    match read_request(Derive, body) {
        Some(request) => derives(&request, told, long, label, context),
        None => false,
    }
}

#[test]
fn derivations_are_read(rt: HostRuntime) {
    let rows: [(&[u8], Target, usize, &[u8], &[u8]); 3] = [
        (
            b"\x03\x04\x03\x00\0\0\0\x05\x20\x05labelcontext",
            (3, 4, 3, false, 5),
            32,
            b"label",
            b"context",
        ),
        (
            b"\x00\x0f\x01\x01\xff\xff\xff\xff\x10\x00",
            (0, 15, 1, true, 0xffff_ffff),
            16,
            b"",
            b"",
        ),
        (
            b"\x0f\x00\x04\x00\0\x01\0\0\x0e\x02ab",
            (15, 0, 4, false, 0x1_0000),
            14,
            b"ab",
            b"",
        ),
    ];
    for (body, told, long, label, context) in rows {
        assert!(rt; derives_from(body, told, long, label, context));
    }
}

#[test]
fn a_context_has_at_most_255_bytes(rt: HostRuntime) {
    let mut body = [7; 521];
    body[..10].copy_from_slice(b"\x01\x02\x02\x01\0\0\0\x09\x18\xff");
    let told = (1, 2, 2, true, 9);
    let part = [7; 255];
    assert!(rt; derives_from(&body[..520], told, 24, &part, &part));
    assert!(rt; read_request(Derive, &body).is_none());
    assert!(rt; derives_from(&body[..265], told, 24, &part, b""));
    assert!(rt; read_request(Derive, &body[..264]).is_none());
}

#[test]
fn broken_derivations_are_refused(rt: HostRuntime) {
    // One byte short; a slot too high; one slot twice; no kind; no flag; no use; lengths that don't fit the kind; a label cut short.
    let rows: [&[u8]; 14] = [
        b"",
        b"\x01\x02\x03\x00\0\0\0\x01\x0e",
        b"\x10\x02\x03\x00\0\0\0\x01\x0e\x00",
        b"\x01\x10\x03\x00\0\0\0\x01\x0e\x00",
        b"\x02\x02\x03\x00\0\0\0\x01\x0e\x00",
        b"\x01\x02\x00\x00\0\0\0\x01\x0e\x00",
        b"\x01\x02\x05\x00\0\0\0\x01\x0e\x00",
        b"\x01\x02\x03\x02\0\0\0\x01\x0e\x00",
        b"\x01\x02\x03\x00\0\0\0\x00\x0e\x00",
        b"\x01\x02\x03\x00\0\0\0\x01\x0d\x00",
        b"\x01\x02\x04\x00\0\0\0\x01\x41\x00",
        b"\x01\x02\x01\x00\0\0\0\x01\x11\x00",
        b"\x01\x02\x02\x00\0\0\0\x01\x28\x00",
        b"\x01\x02\x03\x00\0\0\0\x01\x0e\x03ab",
    ];
    for body in rows {
        assert!(rt; read_request(Derive, body).is_none());
    }
}

// Whether a request draws so many bytes, with this additional input.
fn draws(request: &Request, long: usize, input: &[u8]) -> bool {
    match request {
        Request::Random { length, additional } => *length == long && *additional == input,
        _ => false,
    }
}

fn draws_for(body: &[u8], long: usize, input: &[u8]) -> bool {
    match read_request(Random, body) {
        Some(request) => draws(&request, long, input),
        None => false,
    }
}

#[test]
fn requests_for_random_bytes_are_read(rt: HostRuntime) {
    let mut body = [0; 261];
    body[3] = 1;
    assert!(rt; draws_for(b"\0\0\0\x01", 1, b""));
    assert!(rt; draws_for(b"\0\0\x01\x02input", 258, b"input"));
    assert!(rt; draws_for(b"\0\x01\0\0input", 65_536, b"input"));
    assert!(rt; draws_for(&body[..260], 1, &[0; 256]));
    assert!(rt; read_request(Random, &body).is_none());
    let refused: [&[u8]; 5] = [
        b"",
        b"\0\0\x01",
        b"\0\0\0\0",
        b"\0\x01\0\x01",
        b"\x01\0\0\x01",
    ];
    for body in refused {
        assert!(rt; read_request(Random, body).is_none());
    }
}

// Whether a request reseeds with this additional input.
fn reseeds(request: &Request, input: &[u8]) -> bool {
    match request {
        Request::Reseed { additional } => *additional == input,
        _ => false,
    }
}

#[test]
fn reseeds_are_read(rt: HostRuntime) {
    let body = [7; 257];
    for size in [0usize, 1, 255, 256] {
        let read = match read_request(Reseed, &body[..size]) {
            Some(request) => reseeds(&request, &body[..size]),
            None => false,
        };
        assert!(rt; read);
    }
    assert!(rt; read_request(Reseed, &body).is_none());
}

// What a request tells of a parameter that is drawn: slot, kind, domain, export flag, uses and length.
type Drawn = (u8, u8, u8, bool, u32, usize);

// Whether a request draws this parameter.
fn generates(request: &Request, told: Drawn) -> bool {
    match request {
        Request::Generate {
            target,
            header,
            length,
        } => {
            let (kind, domain) = (header.kind.number(), header.domain.number());
            told == (
                target.get(),
                kind,
                domain,
                header.export,
                header.uses,
                *length,
            )
        }
        _ => false,
    }
}

fn generates_from(body: &[u8], told: Drawn) -> bool {
    match read_request(Generate, body) {
        Some(request) => generates(&request, told),
        None => false,
    }
}

#[test]
fn generations_are_read(rt: HostRuntime) {
    let rows: [([u8; 9], Drawn); 3] = [
        (*b"\x05\x03\x01\x01\0\0\0\x07\x0e", (5, 3, 1, true, 7, 14)),
        (
            *b"\x00\x01\x00\x00\x01\x02\x03\x04\x20",
            (0, 1, 0, false, 0x0102_0304, 32),
        ),
        (
            *b"\x0f\x04\x00\x00\0\0\x01\x00\x01",
            (15, 4, 0, false, 256, 1),
        ),
    ];
    for (body, told) in rows {
        assert!(rt; generates_from(&body, told));
        assert!(rt; read_request(Generate, &body[..8]).is_none());
    }
    // The slot; the kind, twice; the domain; the export flag; the uses; the length, twice.
    let changes = [
        (0usize, 16u8),
        (1, 0),
        (1, 5),
        (2, 2),
        (3, 2),
        (7, 0),
        (8, 13),
        (8, 65),
    ];
    for (place, byte) in changes {
        let mut body = *b"\x05\x03\x01\x01\0\0\0\x07\x0e\0";
        assert!(rt; read_request(Generate, &body).is_none());
        body[place] = byte;
        assert!(rt; read_request(Generate, &body[..9]).is_none());
    }
}

// Whether a request makes this slot zero, and all that was made from it.
fn zeroises_tree(request: &Request, number: u8) -> bool {
    match request {
        Request::ZeroiseTree { slot } => slot.get() == number,
        _ => false,
    }
}

#[test]
fn zeroised_trees_are_read(rt: HostRuntime) {
    for number in 0..16u8 {
        let read = match read_request(ZeroiseTree, &[number]) {
            Some(request) => zeroises_tree(&request, number),
            None => false,
        };
        assert!(rt; read);
    }
    let refused: [&[u8]; 3] = [b"", b"\x10", b"\x01\x02"];
    for body in refused {
        assert!(rt; read_request(ZeroiseTree, body).is_none());
    }
}

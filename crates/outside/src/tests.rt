// What the contracts of the objects in memory cannot see: that calls succeed.
use crate::{Failed, MemNoise, MemSink, MemSource, Noise, Sample, Sink, Source};
use std::test::Fail;

#[test]
fn source_hands_out_its_bytes(rt: HostRuntime) -> Result<(), Fail> {
    let bytes = b"warlinden".to_vec(rt.alloc())?;
    let fail = [3, 1].to_vec(rt.alloc())?;
    let mut source = MemSource::new(bytes, 4, fail);
    let mut buffer = [0; 9];
    let rows = [
        (9, None),
        (9, Some("warl")),
        (3, None),
        (3, Some("ind")),
        (0, Some("")),
        (9, Some("en")),
        (9, Some("")),
    ];
    for (size, want) in rows {
        assert!(rt; size <= 9);
        let got = match source.read(&mut buffer[..size]) {
            Ok(count) => Some(&buffer[..count]),
            Err(Failed) => None,
        };
        assert_eq!(rt; got, want.map(|text| text.as_bytes()));
    }
    Ok(())
}

#[test]
fn sink_gains_bytes_up_to_its_room(rt: HostRuntime) -> Result<(), Fail> {
    let fail = [0, 2].to_vec(rt.alloc())?;
    let mut sink = MemSink::new(rt.alloc(), 6, 4, fail)?;
    let rows = [
        ("abcde", Some(4)),
        ("efg", None),
        ("", Some(0)),
        ("efg", Some(2)),
        ("g", None),
        ("", None),
    ];
    for (piece, want) in rows {
        assert_eq!(rt; sink.write(piece.as_bytes()).ok(), want);
    }
    assert_eq!(rt; sink.bytes(), b"abcdef".as_slice());
    Ok(())
}

#[test]
fn noise_gives_its_events_and_then_ends(rt: HostRuntime) -> Result<(), Fail> {
    let events = [
        Sample::Byte(0),
        Sample::Failed,
        Sample::Ended,
        Sample::Byte(255),
    ];
    let mut noise = MemNoise::new(events.to_vec(rt.alloc())?);
    for want in events {
        assert_eq!(rt; noise.next(), want);
    }
    for _ in 0..2 {
        assert_eq!(rt; noise.next(), Sample::Ended);
    }
    Ok(())
}

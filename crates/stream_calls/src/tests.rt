// What is read and written over sources and sinks of known content. Their calls are counted from 1.
use crate::{read_some, write_all};
use outside::{Failed, MemSink, MemSource, Sink, Source};
use std::alloc::Global;
use std::test::Fail;

#[test]
fn a_read_is_within_chunk_and_limit(rt: HostRuntime) -> Result<(), Fail> {
    let fail = [2].to_vec(rt.alloc())?;
    let mut source = MemSource::new(b"warlinden".to_vec(rt.alloc())?, 100, fail);
    let mut chunk = [0; 4];
    // (the limit, and what is read: nothing where the read fails)
    let rows = [
        (100, Some("warl")),
        (100, None),
        (2, Some("in")),
        (1 << 40, Some("den")),
        (1, Some("")),
    ];
    for (most, want) in rows {
        assert!(rt; most > 0);
        let got = match read_some(&mut source, &mut chunk, most) {
            Ok(count) => Some(&chunk[..count]),
            Err(Failed) => None,
        };
        assert_eq!(rt; got, want.map(|text| text.as_bytes()));
    }
    Ok(())
}

#[test]
fn a_piece_is_written_whole(rt: HostRuntime) -> Result<(), Fail> {
    let mut sink = MemSink::new(rt.alloc(), 20, 3, Vec::new(rt.alloc()))?;
    assert_eq!(rt; write_all(&mut sink, b"warlinden").ok(), Some(()));
    assert_eq!(rt; write_all(&mut sink, b"").ok(), Some(()));
    assert_eq!(rt; write_all(&mut sink, b"!").ok(), Some(()));
    assert_eq!(rt; sink.bytes(), b"warlinden!".as_slice());
    Ok(())
}

#[test]
fn a_failed_write_leaves_a_part(rt: HostRuntime) -> Result<(), Fail> {
    let fail = [2].to_vec(rt.alloc())?;
    let mut sink = MemSink::new(rt.alloc(), 20, 4, fail)?;
    assert!(rt; write_all(&mut sink, b"warlinden").is_err());
    assert_eq!(rt; sink.bytes(), b"warl".as_slice());
    Ok(())
}

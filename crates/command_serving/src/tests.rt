// The offset of a fault, and replies with a payload. Whole runs stand in crates above.
ghost use Rattle.std.specs.Prelude.{◌≤◌};

use crate::frame_codec::send;
use crate::{Ended, serve};
use bits_core::{Enabled, Port};
use engine_core::Shipped;
use module_frames::{Fed, Frames, Reply};
use outside::{MemNoise, MemSink, MemSource};
use state_model::Module;
use std::alloc::Global;
use std::test::Fail;

// Serves these bytes, which come so many at a time, and tells how that ended.
fn ending(alloc: Global, bytes: &[u8], step: usize) -> Result<Ended, Fail>
    requires { 1 ≤ step }
{
    let mut noise = MemNoise::new(Vec::new(alloc));
    let mut frames = Frames::new(alloc)?;
    let mut reply = Reply::new(alloc)?;
    let mut chunk = vec![in alloc; 0; 100]?;
    let mut commands = MemSource::new(bytes.to_vec(alloc)?, step, Vec::new(alloc));
    let mut replies = MemSink::new(alloc, 2_000, 24, Vec::new(alloc))?;
    let mut module = Module::open(alloc, Shipped::new(), Vec::new(alloc), [0; 32])?;
    let ended = serve(
        &mut module,
        &mut noise,
        &mut commands,
        &mut replies,
        &mut frames,
        &mut reply,
        &mut chunk,
    );
    module.shut();
    module.close();
    Ok(ended)
}

// Streams with a fault, and its offset.
const FAULTS: [(&[u8], u64); 9] = [
    (&[0xc5, 0x01, 0x04, 0, 0, 0x01, 0, 0x41], 4),
    (&[0xc4], 0),
    (&[0xc5, 0x01, 0x04, 0xff], 3),
    (&[0xc5, 0x03, 0x04, 0, 0, 0, 0, 0], 1),
    // The first of two wrong bytes counts.
    (&[0xc5, 0x01, 0x04, 0xff, 0xff, 0xff, 0xff, 0xff], 3),
    (&[0xc5, 0x01, 0x01, 0, 0, 0, 0, 4, 0, 0, 0, 0, 0xc4], 12),
    (
        &[0xc5, 0x01, 0x01, 0, 0, 0, 0, 4, 0, 0, 0, 0, 0xc5, 0x03],
        13,
    ),
    (
        &[0xc5, 0x01, 0x04, 0, 0, 0, 0, 0, 0xc5, 0x01, 0x04, 0x01],
        11,
    ),
    (
        &[
            0xc5, 0x01, 0x04, 0, 0, 0, 0, 0, 0xc5, 0x01, 0x04, 0, 0, 0x01, 0, 0x41,
        ],
        12,
    ),
];

#[test]
fn tells_the_place_of_a_fault(rt: HostRuntime) -> Result<(), Fail> {
    for (bytes, offset) in FAULTS {
        for step in [1, 3, 100] {
            let ended = ending(rt.alloc(), bytes, step)?;
            assert_eq!(rt; ended, Ended::BadFrame(offset));
        }
    }
    Ok(())
}

#[test]
fn answers_the_same_place_for_good(rt: HostRuntime) -> Result<(), Fail> {
    let mut frames = Frames::new(rt.alloc())?;
    assert_eq!(rt; frames.feed(&[0xc5, 0x01]), Fed::More);
    assert_eq!(rt; frames.feed(&[0x04, 0xff, 0xc4]), Fed::BadFrame(3));
    assert_eq!(rt;
        frames.feed(&[0xc5, 0x01, 0x04, 0, 0, 0, 0, 0]),
        Fed::BadFrame(3)
    );
    assert_eq!(rt; frames.feed(&[]), Fed::BadFrame(3));
    frames.clear();
    assert_eq!(rt; frames.feed(&[0xc4]), Fed::BadFrame(3));
    assert!(rt; !frames.at_boundary());
    Ok(())
}

// A reply with a payload of three bytes.
fn with_payload(alloc: Global) -> Result<Reply, Fail> {
    let mut reply = Reply::new(alloc)?;
    reply.service = 0x10;
    {
        let mut port = Port::<Enabled>::over(&mut reply.payload);
        port.put(b"abc");
    }
    Ok(reply)
}

#[test]
fn writes_the_payload_behind_the_header(rt: HostRuntime) -> Result<(), Fail> {
    let mut want = [0; 27];
    want[..3].copy_from_slice(&[0x5c, 0x01, 0x10]);
    want[23..].copy_from_slice(b"\x03abc");
    let reply = with_payload(rt.alloc())?;
    for step in [1, 2, 24, 100] {
        let mut replies = MemSink::new(rt.alloc(), 27, step, Vec::new(rt.alloc()))?;
        assert!(rt; send(&reply, &mut replies).is_ok());
        assert_eq!(rt; replies.bytes(), want.as_slice());
    }
    // The room, the number of a write that fails, and how many bytes are written.
    for (room, failing, written) in [
        (0, 9, 0),
        (23, 9, 23),
        (24, 9, 24),
        (26, 9, 26),
        (27, 1, 0),
        (27, 2, 24),
    ] {
        let mut replies = MemSink::new(rt.alloc(), room, 24, [failing].to_vec(rt.alloc())?)?;
        assert!(rt; send(&reply, &mut replies).is_err());
        assert_eq!(rt; replies.bytes().len(), written);
        assert!(rt; want.starts_with(replies.bytes()));
    }
    Ok(())
}

// Backups of what lines make, and lines behind a restored one, against bytes that Python's hmac and cryptography computed.
ghost use Rattle.std.specs.Prelude.{◌≤◌};

use crate::{BackedUp, Restored, back_up, restore_and_operate};
use engine_core::Shipped;
use line_serving::{LineCodec, Operated};
use module_frames::{Command, Reply};
use outside::{MemNoise, MemSink, MemSource, Sample};
use state_model::Module;
use std::alloc::{AllocError, Global};
use std::test::Fail;

// The HMAC-SHA-256 of the image 616263 under the key of the bytes 00 to 1f, by Python's hmac.
const DIGEST: [u8; 32] = [
    0xf0, 0x13, 0x37, 0x29, 0xc4, 0x16, 0x3d, 0xed, 0xe8, 0x1e, 0x21, 0xcd, 0x47, 0x83, 0x92, 0x56,
    0xda, 0x58, 0x17, 0x12, 0x38, 0xc8, 0xa0, 0xd8, 0x74, 0x39, 0x7c, 0x73, 0xb1, 0x4e, 0x1e, 0x47,
];

// The lines that lead to the officer's role.
const OFFICER: &[u8] = b"poweron 0\ntests\nstep\nstep\nstep\nrole officer\n";

// A MAC key, 4a656665, with 7 uses for slot 2, that may leave; and one that may not, for slot 3.
const ENTRIES: &[u8] = b"begin 2 mac other export 7 4\nbytes 4a656665\ncommit e1ae9501c9f339f0\n\
    begin 3 mac other keep 7 4\nbytes 4a656665\ncommit c208361fb132fc4e\n";

// The backup of no slot under the keys of the bytes 00 to 3f.
const EMPTY: &[u8] = &[
    0x53, 0x4d, 0x42, 0x31, 0x00, 0xb3, 0x9f, 0xd9, 0x95, 0x18, 0x4e, 0xa2, 0xd4, 0xab, 0x3a, 0x4c,
    0x31, 0xe9, 0x73, 0xdc, 0x9c, 0x60, 0xda, 0xd1, 0xe0, 0x32, 0x0e, 0x43, 0x47, 0x47, 0xee, 0xf0,
    0xa2, 0x84, 0xb2, 0xbb, 0xe4,
];

// The backup of the key that may leave.
const ONE_KEY: &[u8] = &[
    0x53, 0x4d, 0x42, 0x31, 0x01, 0x02, 0x03, 0x00, 0x00, 0x00, 0x00, 0x07, 0x04, 0xa9, 0x96, 0xa5,
    0x12, 0x33, 0x56, 0xc6, 0x64, 0xb0, 0xec, 0x76, 0x49, 0xef, 0xbd, 0x39, 0x69, 0x03, 0x16, 0x9b,
    0x9e, 0x21, 0xc7, 0x46, 0x3c, 0x01, 0x13, 0x35, 0xf4, 0x4f, 0xb8, 0x89, 0xfd, 0xd9, 0x9d, 0x93,
    0x71, 0xc6, 0x3a, 0x92, 0xe0, 0x2e, 0x9f, 0xc5, 0x33, 0x28, 0x95, 0x26, 0xdd,
];

// 1,408 samples of noise: the bytes 00, 01, .., ff, and again from 00.
fn noise_of(alloc: Global) -> Result<MemNoise, AllocError> {
    let mut noise = Vec::new(alloc);
    let mut byte: u8 = 0;
    for _ in 0..1408 {
        noise.push(Sample::Byte(byte))?;
        byte = byte.wrapping_add(1);
    }
    Ok(MemNoise::new(noise))
}

// The keys of the bytes 00 to 3f.
fn keys_of() -> [u8; 64] {
    let mut keys = [0; 64];
    for place in 0..64 {
        keys[place] = place as u8;
    }
    keys
}

// Lines that come seven bytes at a time.
fn lines_of(alloc: Global, parts: &[&[u8]]) -> Result<MemSource, AllocError> {
    let mut text = Vec::new(alloc);
    for part in parts {
        text.extend_from_slice(part)?;
    }
    Ok(MemSource::new(text, 7, Vec::new(alloc)))
}

// Backs up behind lines, with a module that isn't powered; whether the keys are zero then is told besides.
fn backed_up(
    alloc: Global,
    lines: &mut MemSource,
    out: &mut MemSink,
) -> Result<(BackedUp, bool), AllocError> {
    let mut noise = noise_of(alloc)?;
    let mut keys = keys_of();
    let mut codec = LineCodec::new(alloc)?;
    let mut reply = Reply::new(alloc)?;
    let mut chunk = vec![in alloc; 0; 100]?;
    let image = b"abc".to_vec(alloc)?;
    let mut module = Module::open(alloc, Shipped::new(), image, DIGEST)?;
    let answer = back_up(
        &mut module,
        &mut noise,
        &mut keys,
        lines,
        out,
        &mut codec,
        &mut reply,
        &mut chunk,
    );
    module.shut();
    module.close();
    Ok((answer, keys == [0; 64]))
}

// Restores a backup and serves lines, with a module that isn't powered.
fn restored(
    alloc: Global,
    backup: &[u8],
    lines: &mut MemSource,
    out: &mut MemSink,
) -> Result<(Restored, bool), AllocError> {
    let mut noise = noise_of(alloc)?;
    let mut keys = keys_of();
    let mut codec = LineCodec::new(alloc)?;
    let mut command = Command::new(alloc)?;
    let mut reply = Reply::new(alloc)?;
    let mut chunk = vec![in alloc; 0; 100]?;
    let image = b"abc".to_vec(alloc)?;
    let mut module = Module::open(alloc, Shipped::new(), image, DIGEST)?;
    let answer = restore_and_operate(
        &mut module,
        &mut noise,
        &mut keys,
        backup,
        lines,
        out,
        &mut codec,
        &mut command,
        &mut reply,
        &mut chunk,
    );
    module.shut();
    module.close();
    Ok((answer, keys == [0; 64]))
}

#[test]
fn keeps_what_may_leave(rt: HostRuntime) -> Result<(), Fail> {
    let mut lines = lines_of(rt.alloc(), &[OFFICER, ENTRIES])?;
    let mut out = MemSink::new(rt.alloc(), 200, 50, Vec::new(rt.alloc()))?;
    let answer = backed_up(rt.alloc(), &mut lines, &mut out)?;
    assert_eq!(rt; answer, (BackedUp::Written, true));
    assert_eq!(rt; out.bytes(), ONE_KEY);
    Ok(())
}

#[test]
fn keeps_nothing_of_empty_slots(rt: HostRuntime) -> Result<(), Fail> {
    let mut lines = lines_of(rt.alloc(), &[OFFICER, b"# nothing was entered"])?;
    let mut out = MemSink::new(rt.alloc(), 200, 50, Vec::new(rt.alloc()))?;
    let answer = backed_up(rt.alloc(), &mut lines, &mut out)?;
    assert_eq!(rt; answer, (BackedUp::Written, true));
    assert_eq!(rt; out.bytes(), EMPTY);
    Ok(())
}

#[test]
fn writes_none_outside_the_officers_role(rt: HostRuntime) -> Result<(), Fail> {
    for last in [
        b"role user\n".as_slice(),
        b"begin 2 mac other export 7 4",
        b"reset",
        b"tests",
    ] {
        let mut lines = lines_of(rt.alloc(), &[OFFICER, last])?;
        let mut out = MemSink::new(rt.alloc(), 200, 50, Vec::new(rt.alloc()))?;
        let answer = backed_up(rt.alloc(), &mut lines, &mut out)?;
        assert_eq!(rt; answer, (BackedUp::NotOfficer, true));
        assert_eq!(rt; out.bytes(), b"".as_slice());
    }
    let mut lines = lines_of(rt.alloc(), &[])?;
    let mut out = MemSink::new(rt.alloc(), 200, 50, Vec::new(rt.alloc()))?;
    let answer = backed_up(rt.alloc(), &mut lines, &mut out)?;
    assert_eq!(rt; answer, (BackedUp::NotOfficer, true));
    Ok(())
}

#[test]
fn tells_a_bad_line(rt: HostRuntime) -> Result<(), Fail> {
    let mut lines = lines_of(rt.alloc(), &[OFFICER, b"frob\nrole officer\n"])?;
    let mut out = MemSink::new(rt.alloc(), 200, 50, Vec::new(rt.alloc()))?;
    let answer = backed_up(rt.alloc(), &mut lines, &mut out)?;
    assert_eq!(rt; answer, (BackedUp::BadLine(7), true));
    assert_eq!(rt; out.bytes(), b"bad line 7\n".as_slice());
    Ok(())
}

#[test]
fn tells_failed_calls(rt: HostRuntime) -> Result<(), Fail> {
    let fail = [3].to_vec(rt.alloc())?;
    let mut lines = MemSource::new(OFFICER.to_vec(rt.alloc())?, 7, fail);
    let mut out = MemSink::new(rt.alloc(), 200, 50, Vec::new(rt.alloc()))?;
    let answer = backed_up(rt.alloc(), &mut lines, &mut out)?;
    assert_eq!(rt; answer, (BackedUp::ReadFault, true));
    assert_eq!(rt; out.bytes(), b"".as_slice());
    // There is room for 30 bytes of 37.
    let mut lines = lines_of(rt.alloc(), &[OFFICER])?;
    let mut out = MemSink::new(rt.alloc(), 30, 50, Vec::new(rt.alloc()))?;
    let answer = backed_up(rt.alloc(), &mut lines, &mut out)?;
    assert_eq!(rt; answer, (BackedUp::WriteFault, true));
    assert_eq!(rt; out.bytes(), &EMPTY[..30]);
    Ok(())
}

// What is answered to `slot 2` behind the backup.
const REPLY: &[u8] = b"Ok Officer 0 0000 010300010400000000000007 -\n";

#[test]
fn serves_lines_from_what_was_restored(rt: HostRuntime) -> Result<(), Fail> {
    let mut lines = lines_of(rt.alloc(), &[b"slot 2\n"])?;
    let mut out = MemSink::new(rt.alloc(), 200, 50, Vec::new(rt.alloc()))?;
    let answer = restored(rt.alloc(), ONE_KEY, &mut lines, &mut out)?;
    assert_eq!(rt; answer, (Restored::Operated(Operated::End), true));
    assert_eq!(rt; out.bytes(), REPLY);
    Ok(())
}

// Whether this backup is refused, and nothing is written then.
fn is_refused(alloc: Global, backup: &[u8]) -> Result<bool, AllocError> {
    let mut lines = lines_of(alloc, &[b"slot 2\n"])?;
    let mut out = MemSink::new(alloc, 200, 50, Vec::new(alloc))?;
    let answer = restored(alloc, backup, &mut lines, &mut out)?;
    Ok(answer == (Restored::Refused, true) && out.bytes().is_empty())
}

#[test]
fn refuses_a_changed_backup(rt: HostRuntime) -> Result<(), Fail> {
    let mut changed = ONE_KEY.to_vec(rt.alloc())?;
    changed[60] ^= 1;
    let bit = is_refused(rt.alloc(), &changed)?;
    assert!(rt; bit);
    let short = is_refused(rt.alloc(), &ONE_KEY[..60])?;
    assert!(rt; short);
    let nothing = is_refused(rt.alloc(), b"")?;
    assert!(rt; nothing);
    Ok(())
}

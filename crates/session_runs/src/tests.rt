// Sessions that are run through a module with the shipped engine, against rows that a model computed.
ghost use Rattle.std.specs.Prelude.{◌≤◌};

use crate::run_session;
use crate::summary_rows::{ROWS, Row};
use engine_core::Shipped;
use module_frames::{Command, Reply};
use outside::{Failed, MemNoise, MemSink, Sample};
use service_table::Status;
use session_commands::Session;
use state_model::Module;
use std::alloc::{AllocError, Global};
use std::test::Fail;

// The HMAC-SHA-256 of the image 616263 under the key of the bytes 00 to 1f, by Python's hmac.
const DIGEST: [u8; 32] = [
    0xf0, 0x13, 0x37, 0x29, 0xc4, 0x16, 0x3d, 0xed, 0xe8, 0x1e, 0x21, 0xcd, 0x47, 0x83, 0x92, 0x56,
    0xda, 0x58, 0x17, 0x12, 0x38, 0xc8, 0xa0, 0xd8, 0x74, 0x39, 0x7c, 0x73, 0xb1, 0x4e, 0x1e, 0x47,
];

// The rows stand here, so that a test pays for the table once.
fn rows() -> &'static [Row] {
    &ROWS
}

// So many samples of noise: the bytes 00, 01, .., ff, and again from 00.
fn noise_of(alloc: Global, samples: usize) -> Result<MemNoise, AllocError> {
    let mut noise = Vec::new(alloc);
    let mut byte: u8 = 0;
    for _ in 0..samples {
        noise.push(Sample::Byte(byte))?;
        byte = byte.wrapping_add(1);
    }
    Ok(MemNoise::new(noise))
}

// What a run leaves behind: whether all was written, and whether session, command and reply are done with.
#[derive(Clone, Copy, Debug, PartialEq, Eq)]
struct Left {
    written: Result<(), Failed>,
    over: bool,
    cleared: bool,
}

// Runs the session of a seed and a count over a module that isn't powered.
#[tactic(auto, using(crate::proofs::SessionLengths::session_is_short))]
fn run(
    alloc: Global,
    seed: u64,
    count: u32,
    samples: usize,
    out: &mut MemSink,
) -> Result<Left, AllocError> {
    let mut noise = noise_of(alloc, samples)?;
    let mut command = Command::new(alloc)?;
    let mut reply = Reply::new(alloc)?;
    let image = b"abc".to_vec(alloc)?;
    let mut session = Session::new(seed, count);
    let mut module = Module::open(alloc, Shipped::new(), image, DIGEST)?;
    let written = run_session(
        &mut module,
        &mut noise,
        &mut session,
        &mut command,
        &mut reply,
        out,
    );
    module.shut();
    module.close();
    let is_zero = reply.status == Status::Ok && reply.block == [0; 12];
    let cleared = is_zero && reply.payload.bytes().is_empty() && command.body().is_empty();
    Ok(Left {
        written,
        over: !session.next(&mut command),
        cleared,
    })
}

#[test]
fn summaries_are_those_of_the_rows(rt: HostRuntime) -> Result<(), Fail> {
    let all = Left {
        written: Ok(()),
        over: true,
        cleared: true,
    };
    for (seed, count, samples, text) in rows() {
        let mut out = MemSink::new(rt.alloc(), 1_000, 1_000, Vec::new(rt.alloc()))?;
        assert_eq!(rt; run(rt.alloc(), *seed, *count, *samples, &mut out)?, all);
        assert_eq!(rt; out.bytes(), text.as_bytes());
    }
    Ok(())
}

// The second write fails, behind the first 24 bytes of what checks/machine_sessions.py prints for 7 1 0.
#[test]
fn a_failed_write_leaves_a_part(rt: HostRuntime) -> Result<(), Fail> {
    let mut out = MemSink::new(rt.alloc(), 1_000, 24, [2].to_vec(rt.alloc())?)?;
    let left = run(rt.alloc(), 7, 1, 0, &mut out)?;
    let part = Left {
        written: Err(Failed),
        over: true,
        cleared: true,
    };
    assert_eq!(rt; left, part);
    assert_eq!(rt; out.bytes(), b"commands 12\nstatus 0 4\ns".as_slice());
    Ok(())
}

// Lines cut anywhere, against replies that were written by hand.
ghost use Rattle.std.specs.Prelude.{◌≤◌};

use crate::{LARGEST_LINE, LineCodec, Operated, operate};
use engine_core::Shipped;
use module_frames::Reply;
use outside::{MemNoise, MemSink, MemSource};
use state_model::Module;
use std::alloc::{AllocError, Global};
use std::test::Fail;

// What is answered to `poweron 0` and to `version`.
const POWERED: &[u8] = b"Ok Init 0 0000 000000000000000000000000 -\n";

const VERSION: &[u8] = b"Ok Off 0 0000 53594d4d4f442030312e3030 -\n";

// Serves lines to a new module.
fn operated(alloc: Global, lines: &mut MemSource, replies: &mut MemSink) -> Result<Operated, Fail> {
    let mut noise = MemNoise::new(Vec::new(alloc));
    let mut codec = LineCodec::new(alloc)?;
    let mut reply = Reply::new(alloc)?;
    let mut chunk = vec![in alloc; 0; 100]?;
    let mut module = Module::open(alloc, Shipped::new(), Vec::new(alloc), [0; 32])?;
    let ended = operate(
        &mut module,
        &mut noise,
        lines,
        replies,
        &mut codec,
        &mut reply,
        &mut chunk,
    );
    module.shut();
    module.close();
    Ok(ended)
}

// Whether this text, which comes so many bytes at a time, is answered so, and this is written.
fn is_answered(
    alloc: Global,
    text: &[u8],
    step: usize,
    want: Operated,
    out: &[u8],
) -> Result<bool, Fail>
    requires { 1 ≤ step }
{
    let mut lines = MemSource::new(text.to_vec(alloc)?, step, Vec::new(alloc));
    let mut replies = MemSink::new(alloc, 200, 7, Vec::new(alloc))?;
    let ended = operated(alloc, &mut lines, &mut replies)?;
    Ok(ended == want && replies.bytes() == out)
}

#[test]
fn a_bad_line_is_told_by_its_number(rt: HostRuntime) -> Result<(), Fail> {
    let mut out = POWERED.to_vec(rt.alloc())?;
    out.extend_from_slice(b"bad line 3\n")?;
    let text = b"poweron 0\n# a note\nfrob\nversion\n";
    for step in [1, 3, 100] {
        let is_so = is_answered(rt.alloc(), text, step, Operated::BadLine(3), &out)?;
        assert!(rt; is_so);
    }
    Ok(())
}

#[test]
fn numbers_have_all_their_digits(rt: HostRuntime) -> Result<(), Fail> {
    let text = b"\n\n#\n\n\n#\n\n\n\n\n\nversion 1";
    for step in [1, 3, 100] {
        let is_so = is_answered(
            rt.alloc(),
            text,
            step,
            Operated::BadLine(12),
            b"bad line 12\n",
        )?;
        assert!(rt; is_so);
    }
    Ok(())
}

#[test]
fn the_last_line_needs_no_line_feed(rt: HostRuntime) -> Result<(), Fail> {
    for text in [b"version".as_slice(), b"version\n", b"\n#\nversion\n\n#"] {
        for step in [1, 3, 100] {
            let is_so = is_answered(rt.alloc(), text, step, Operated::End, VERSION)?;
            assert!(rt; is_so);
        }
    }
    Ok(())
}

#[test]
fn no_line_and_comments_are_answered_by_nothing(rt: HostRuntime) -> Result<(), Fail> {
    for text in [b"".as_slice(), b"\n", b"\n\n# a note"] {
        let is_so = is_answered(rt.alloc(), text, 3, Operated::End, b"")?;
        assert!(rt; is_so);
    }
    Ok(())
}

#[test]
fn a_failed_write_leaves_a_part_of_the_text(rt: HostRuntime) -> Result<(), Fail> {
    // what there is room for, behind the reply's line
    for part in ["", "bad ", "bad line 2"] {
        let text = b"version\nfrob".to_vec(rt.alloc())?;
        let mut out = VERSION.to_vec(rt.alloc())?;
        out.extend_from_slice(part.as_bytes())?;
        let mut lines = MemSource::new(text, 100, Vec::new(rt.alloc()));
        let mut replies = MemSink::new(rt.alloc(), out.len(), 50, Vec::new(rt.alloc()))?;
        let ended = operated(rt.alloc(), &mut lines, &mut replies)?;
        assert_eq!(rt; ended, Operated::WriteFault);
        assert_eq!(rt; replies.bytes(), out.as_slice());
    }
    Ok(())
}

#[test]
fn a_failed_read_drops_the_rest(rt: HostRuntime) -> Result<(), Fail> {
    let fail = [2].to_vec(rt.alloc())?;
    let mut lines = MemSource::new(b"version\nfrob".to_vec(rt.alloc())?, 10, fail);
    let mut replies = MemSink::new(rt.alloc(), 200, 50, Vec::new(rt.alloc()))?;
    let ended = operated(rt.alloc(), &mut lines, &mut replies)?;
    assert_eq!(rt; ended, Operated::ReadFault);
    assert_eq!(rt; replies.bytes(), VERSION);
    Ok(())
}

// So many signs that begin a comment.
fn signs(alloc: Global, count: usize) -> Result<Vec<u8>, AllocError> {
    vec![in alloc; b'#'; count]
}

#[test]
fn a_line_of_131401_bytes_is_bad(rt: HostRuntime) -> Result<(), Fail> {
    let longest = signs(rt.alloc(), LARGEST_LINE)?;
    let is_so = is_answered(rt.alloc(), &longest, 65_536, Operated::End, b"")?;
    assert!(rt; is_so);
    let longer = signs(rt.alloc(), LARGEST_LINE + 1)?;
    let is_so = is_answered(
        rt.alloc(),
        &longer,
        65_536,
        Operated::BadLine(1),
        b"bad line 1\n",
    )?;
    assert!(rt; is_so);
    Ok(())
}

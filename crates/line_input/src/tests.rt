// Lines in any cutting, against lists that were written by hand.
ghost use Rattle.std.specs.Prelude.{◌≡◌, false, OnOk};

use crate::{LARGEST_LINE, LineFed, Lines};
use std::alloc::{AllocError, Global};
use std::test::Fail;

// Feeds a piece, and writes each line that stands behind those that were seen, with a bar. Whether no line was too long.
fn take_lines(lines: &mut Lines, piece: &[u8], seen: &mut Vec<u8>) -> Result<bool, AllocError>
    requires { lines.old.whole ≡ false }
    ensures { OnOk result (lines.new.whole ≡ false) }
{
    let mut place = 0;
    for _turn in 0..=piece.len() {
        match lines.feed(&piece[place..]) {
            LineFed::More => return Ok(true),
            LineFed::TooLong => return Ok(false),
            LineFed::Whole(count) => {
                seen.extend_from_slice(lines.line())?;
                seen.push(b'|')?;
                lines.clear();
                place += count;
            }
        }
    }
    Ok(true)
}

#[test]
fn lines_are_the_same_however_they_are_cut(rt: HostRuntime) -> Result<(), Fail> {
    let text = b"ab\n\n\r\n c\0\nlast".as_slice();
    for cut in 0..=text.len() {
        let mut lines = Lines::new(rt.alloc())?;
        let mut seen = Vec::new(rt.alloc());
        assert!(rt; take_lines(&mut lines, &text[..cut], &mut seen)?);
        assert!(rt; take_lines(&mut lines, &text[cut..], &mut seen)?);
        assert_eq!(rt; seen.as_slice(), b"ab||\r| c\0|".as_slice());
        assert!(rt; lines.rest());
    }
    Ok(())
}

#[test]
fn a_last_line_needs_bytes(rt: HostRuntime) -> Result<(), Fail> {
    let mut lines = Lines::new(rt.alloc())?;
    assert!(rt; !lines.rest());
    let mut seen = Vec::new(rt.alloc());
    assert!(rt; take_lines(&mut lines, b"a line\n", &mut seen)?);
    assert!(rt; !lines.rest());
    assert_eq!(rt; lines.feed(b"last"), LineFed::More);
    let stands = lines.rest();
    assert!(rt; stands);
    Ok(())
}

// So many bytes of one value.
fn equal_bytes(alloc: Global, byte: u8, count: usize) -> Result<Vec<u8>, AllocError> {
    vec![in alloc; byte; count]
}

#[test]
fn the_longest_line_stands(rt: HostRuntime) -> Result<(), Fail> {
    let piece = equal_bytes(rt.alloc(), b'7', LARGEST_LINE)?;
    let mut lines = Lines::new(rt.alloc())?;
    assert_eq!(rt; lines.feed(&piece), LineFed::More);
    assert_eq!(rt; lines.feed(b"\nmore"), LineFed::Whole(1));
    assert_eq!(rt; lines.line().len(), LARGEST_LINE);
    lines.clear();
    assert_eq!(rt; lines.feed(&piece), LineFed::More);
    assert!(rt; lines.rest());
    Ok(())
}

#[test]
fn a_longer_line_is_refused_for_good(rt: HostRuntime) -> Result<(), Fail> {
    let piece = equal_bytes(rt.alloc(), b'#', LARGEST_LINE)?;
    for more in [b"#".as_slice(), b"#\n"] {
        let mut lines = Lines::new(rt.alloc())?;
        assert_eq!(rt; lines.feed(&piece), LineFed::More);
        assert_eq!(rt; lines.feed(more), LineFed::TooLong);
        assert!(rt; !lines.rest());
        assert_eq!(rt; lines.feed(b"\n"), LineFed::TooLong);
        lines.clear();
        assert_eq!(rt; lines.feed(b"step\n"), LineFed::TooLong);
    }
    Ok(())
}

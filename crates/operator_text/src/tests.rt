// Lines that spell commands, comments and bad lines, against rows that a script computed.
use crate::line_rows::{
    BAD_BYTES, BAD_NAMES, BAD_NUMBERS, BAD_SPACES, COMMENTS, MANAGING, ONE_WORD_FEWER,
    ONE_WORD_MORE, OTHER_SIGNS, SERVING,
};
use crate::{LineRead, read_line};
use line_input::LARGEST_LINE;
use module_frames::Command;
use std::alloc::{AllocError, Global};
use std::test::Fail;

// Whether the line spells the command of the service with this body.
fn spells(line: &[u8], service: u8, body: &[u8], command: &mut Command) -> bool {
    read_line(line, command) == LineRead::Command
        && command.service() == service
        && command.sequence().is_none()
        && command.body() == body
}

// Whether the line is bad, and leaves a cleared command.
fn is_bad(line: &[u8], command: &mut Command) -> bool {
    command.set(7, b"old");
    read_line(line, command) == LineRead::Bad && command.service() == 0 && command.body().is_empty()
}

#[test]
fn managing_lines_spell_their_commands(rt: HostRuntime) -> Result<(), Fail> {
    let mut command = Command::new(rt.alloc())?;
    for (line, service, body) in MANAGING {
        assert!(rt; spells(line, service, body, &mut command));
    }
    Ok(())
}

#[test]
fn serving_lines_spell_their_commands(rt: HostRuntime) -> Result<(), Fail> {
    let mut command = Command::new(rt.alloc())?;
    for (line, service, body) in SERVING {
        assert!(rt; spells(line, service, body, &mut command));
    }
    Ok(())
}

#[test]
fn each_line_has_its_number_of_words(rt: HostRuntime) -> Result<(), Fail> {
    let mut command = Command::new(rt.alloc())?;
    for line in ONE_WORD_MORE {
        assert!(rt; is_bad(line, &mut command));
    }
    for line in ONE_WORD_FEWER {
        assert!(rt; is_bad(line, &mut command));
    }
    Ok(())
}

#[test]
fn single_spaces_part_the_words(rt: HostRuntime) -> Result<(), Fail> {
    let mut command = Command::new(rt.alloc())?;
    for line in BAD_SPACES {
        assert!(rt; is_bad(line, &mut command));
    }
    for line in OTHER_SIGNS {
        assert!(rt; is_bad(line, &mut command));
    }
    Ok(())
}

#[test]
fn numbers_are_decimal_and_fit_their_fields(rt: HostRuntime) -> Result<(), Fail> {
    let mut command = Command::new(rt.alloc())?;
    for line in BAD_NUMBERS {
        assert!(rt; is_bad(line, &mut command));
    }
    Ok(())
}

#[test]
fn names_are_those_of_the_tables(rt: HostRuntime) -> Result<(), Fail> {
    let mut command = Command::new(rt.alloc())?;
    for line in BAD_NAMES {
        assert!(rt; is_bad(line, &mut command));
    }
    for line in BAD_BYTES {
        assert!(rt; is_bad(line, &mut command));
    }
    Ok(())
}

#[test]
fn comments_make_no_command(rt: HostRuntime) -> Result<(), Fail> {
    let mut command = Command::new(rt.alloc())?;
    for line in COMMENTS {
        command.set(7, b"old");
        assert_eq!(rt; read_line(line, &mut command), LineRead::Comment);
        assert_eq!(rt; command.service(), 0);
        assert!(rt; command.body().is_empty());
    }
    Ok(())
}

// A line of so many equal signs.
fn equal_signs(alloc: Global, sign: u8, count: usize) -> Result<Vec<u8>, AllocError> {
    vec![in alloc; sign; count]
}

// The line that enters bytes, with so many digits.
fn bytes_line(alloc: Global, digits: usize) -> Result<Vec<u8>, AllocError> {
    let mut line = b"bytes ".to_vec(alloc)?;
    line.extend_from_slice(&equal_signs(alloc, b'7', digits)?)?;
    Ok(line)
}

#[test]
fn a_longer_line_is_bad_also_as_a_comment(rt: HostRuntime) -> Result<(), Fail> {
    let mut command = Command::new(rt.alloc())?;
    let longest = equal_signs(rt.alloc(), b'#', LARGEST_LINE)?;
    assert_eq!(rt; read_line(&longest, &mut command), LineRead::Comment);
    let longer = equal_signs(rt.alloc(), b'#', LARGEST_LINE + 1)?;
    assert!(rt; is_bad(&longer, &mut command));
    Ok(())
}

#[test]
fn a_body_has_at_most_65600_bytes(rt: HostRuntime) -> Result<(), Fail> {
    let mut command = Command::new(rt.alloc())?;
    let longest = bytes_line(rt.alloc(), 131_200)?;
    assert_eq!(rt; read_line(&longest, &mut command), LineRead::Command);
    assert_eq!(rt; command.body().len(), 65_600);
    let longer = bytes_line(rt.alloc(), 131_202)?;
    assert!(rt; is_bad(&longer, &mut command));
    Ok(())
}

#[test]
fn a_short_word_has_at_most_255_bytes(rt: HostRuntime) -> Result<(), Fail> {
    let mut command = Command::new(rt.alloc())?;
    let mut line = [b'7'; 530];
    line[..16].copy_from_slice(b"verify 3 sha256 ");
    line[526..528].copy_from_slice(b" -");
    assert_eq!(rt; read_line(&line[..528], &mut command), LineRead::Command);
    assert!(rt; command.body().starts_with(b"\x03\x01\xff"));
    line[526..530].copy_from_slice(b"77 -");
    assert!(rt; is_bad(&line, &mut command));
    Ok(())
}

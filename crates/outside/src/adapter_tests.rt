// What the contracts of the adapters cannot see, since they tell no content.
use crate::{Failed, FileNoise, Noise, Sample, Sink, Source, StdSink, StdSource};
use std::io::{Error, ErrorKind, Read, Write};
use std::test::Fail;

// Gives one byte a read, after a signal that comes first, and fails at every fifth read.
#[derive(Drop)]
struct Moody<'a> {
    bytes: &'a [u8],
    reads: u8,
}

impl Read for Moody<'_> {
    fn read(&mut self, buf: &mut [u8]) -> std::io::Result<usize> {
        self.reads = self.reads.wrapping_add(1);
        match self.reads % 5 {
            0 => Err(Error::from(ErrorKind::BrokenPipe)),
            1 | 3 => Err(Error::from(ErrorKind::Interrupted)),
            _ => {
                let end = buf.len().min(1);
                self.bytes.read(&mut buf[..end])
            }
        }
    }
}

#[test]
fn std_source_gives_what_is_there(rt: HostRuntime) -> Result<(), Fail> {
    let mut moody = Moody {
        bytes: b"ab",
        reads: 0,
    };
    let mut source = StdSource::new(&mut moody);
    let mut buffer = [0; 4];
    for want in [Ok(1), Ok(1), Err(Failed), Ok(0)] {
        assert_eq!(rt; source.read(&mut buffer), want);
    }
    Ok(())
}

// Takes two bytes a write, after a signal that comes first, and counts what was flushed. It takes
// nothing of a piece that begins with '-', and cannot flush one that begins with '!'.
#[derive(Drop)]
struct Pipe {
    bytes: Vec<u8>,
    flushed: usize,
    signalled: bool,
    broken: bool,
}

impl Write for Pipe {
    fn write(&mut self, buf: &[u8]) -> std::io::Result<usize> {
        self.signalled = !self.signalled;
        if self.signalled {
            return Err(Error::from(ErrorKind::Interrupted));
        }
        if buf.first() == Some(&b'-') {
            return Ok(0);
        }
        self.broken = buf.first() == Some(&b'!');
        let end = buf.len().min(2);
        self.bytes.write(&buf[..end])
    }

    fn flush(&mut self) -> std::io::Result<()> {
        if self.broken {
            return Err(Error::from(ErrorKind::BrokenPipe));
        }
        self.flushed = self.bytes.len();
        Ok(())
    }
}

#[test]
fn std_sink_delivers_at_once(rt: HostRuntime) -> Result<(), Fail> {
    let mut pipe = Pipe {
        bytes: Vec::new(rt.alloc()),
        flushed: 0,
        signalled: false,
        broken: false,
    };
    let rows = [
        ("abc", Ok(2), 2),
        ("c", Ok(1), 3),
        ("-d", Err(Failed), 3),
        ("", Ok(0), 3),
        ("!d", Err(Failed), 3),
        ("d", Ok(1), 6),
    ];
    for (piece, want, flushed) in rows {
        let mut sink = StdSink::new(&mut pipe);
        assert_eq!(rt; sink.write(piece.as_bytes()), want);
        assert_eq!(rt; pipe.flushed, flushed);
    }
    assert_eq!(rt; pipe.bytes.as_slice(), b"abc!dd".as_slice());
    Ok(())
}

// Answers this error to its first calls, and then takes or gives one byte a call. It counts the calls.
#[derive(Drop)]
struct Faulty {
    error: ErrorKind,
    errors: u32,
    calls: u32,
    flush_fails: bool,
}

impl Faulty {
    fn new(error: ErrorKind, errors: u32) -> Self {
        Faulty {
            error,
            errors,
            calls: 0,
            flush_fails: false,
        }
    }

    fn call(&mut self) -> std::io::Result<()> {
        self.calls = self.calls.saturating_add(1);
        if self.calls <= self.errors {
            return Err(Error::from(self.error));
        }
        Ok(())
    }
}

impl Read for Faulty {
    fn read(&mut self, buf: &mut [u8]) -> std::io::Result<usize> {
        self.call()?;
        let count = buf.len().min(1);
        buf[..count].fill(b'x');
        Ok(count)
    }
}

impl Write for Faulty {
    fn write(&mut self, buf: &[u8]) -> std::io::Result<usize> {
        self.call()?;
        Ok(buf.len().min(1))
    }

    fn flush(&mut self) -> std::io::Result<()> {
        if self.flush_fails {
            return Err(Error::from(ErrorKind::Other));
        }
        Ok(())
    }
}

// An error, how often it comes, what a call on the adapter answers, and how many calls it makes below.
const ROWS: [(ErrorKind, u32, Result<usize, Failed>, u32); 6] = [
    (ErrorKind::Interrupted, 0, Ok(1), 1),
    (ErrorKind::Interrupted, 999, Ok(1), 1_000),
    (ErrorKind::Interrupted, 1_000, Err(Failed), 1_000),
    (ErrorKind::Interrupted, 1_001, Err(Failed), 1_000),
    (ErrorKind::BrokenPipe, 1, Err(Failed), 1),
    (ErrorKind::WouldBlock, 1, Err(Failed), 1),
];

#[test]
fn std_source_asks_again_after_a_signal_alone(rt: HostRuntime) -> Result<(), Fail> {
    for (error, errors, want, calls) in ROWS {
        let mut reader = Faulty::new(error, errors);
        let mut buffer = [b'-'; 4];
        assert_eq!(rt; StdSource::new(&mut reader).read(&mut buffer), want);
        assert_eq!(rt; reader.calls, calls);
        let first = if want.is_ok() { b'x' } else { b'-' };
        assert_eq!(rt; buffer, [first, b'-', b'-', b'-']);
    }
    Ok(())
}

#[test]
fn std_sink_asks_again_after_a_signal_alone(rt: HostRuntime) -> Result<(), Fail> {
    for (error, errors, want, calls) in ROWS {
        let mut writer = Faulty::new(error, errors);
        assert_eq!(rt; StdSink::new(&mut writer).write(b"abcd"), want);
        assert_eq!(rt; writer.calls, calls);
    }
    Ok(())
}

#[test]
fn file_noise_asks_again_after_a_signal_alone(rt: HostRuntime) -> Result<(), Fail> {
    for (error, errors, want, calls) in ROWS {
        let mut reader = Faulty::new(error, errors);
        let sample = match want {
            Ok(_) => Sample::Byte(b'x'),
            Err(Failed) => Sample::Failed,
        };
        assert_eq!(rt; FileNoise::new(&mut reader).next(), sample);
        assert_eq!(rt; reader.calls, calls);
    }
    Ok(())
}

#[test]
fn std_sink_fails_where_a_flush_fails(rt: HostRuntime) -> Result<(), Fail> {
    let mut writer = Faulty::new(ErrorKind::Interrupted, 0);
    writer.flush_fails = true;
    let mut sink = StdSink::new(&mut writer);
    for piece in ["abcd", ""] {
        assert_eq!(rt; sink.write(piece.as_bytes()), Err(Failed));
    }
    Ok(())
}

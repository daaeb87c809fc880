// What the adapters do over real files and pipes, in the folder in which a test runs.
use crate::disk_files::read_within;
use crate::{
    DiskFiles, Failed, FileNoise, Files, LoadFault, Noise, Sample, Sink, Source, StdSink, StdSource,
};
use std::io::{Error, ErrorKind, Read};
use std::test::Fail;
use std::{fs, io};

#[test]
fn disk_files_load_up_to_a_limit(rt: HostRuntime) -> Result<(), Fail> {
    fs::create_dir(&rt, "folder")?;
    fs::write(&rt, "empty", "")?;
    fs::write(&rt, "six", "123456")?;
    fs::write(&rt, "folder/clé ключ", "unlocked")?;
    let rows = [
        ("missing", 6, Err(LoadFault::Failed)),
        ("folder", 6, Err(LoadFault::Failed)),
        ("six/under", 6, Err(LoadFault::Failed)),
        ("empty", 0, Ok("")),
        ("six", 7, Ok("123456")),
        ("six", 6, Ok("123456")),
        ("six", 5, Err(LoadFault::TooLong)),
        ("six", 0, Err(LoadFault::TooLong)),
        ("six", usize::MAX, Ok("123456")),
        ("folder/clé ключ", 8, Ok("unlocked")),
        ("/dev/zero", 100_000, Err(LoadFault::TooLong)),
        ("/dev/null", 0, Ok("")),
    ];
    let mut files = DiskFiles::new(&rt);
    for (name, limit, want) in rows {
        let got = files.load(rt.alloc(), name, limit);
        let got = match &got {
            Ok(bytes) => Ok(bytes.as_slice()),
            Err(fault) => Err(*fault),
        };
        assert_eq!(rt; got, want.map(|text| text.as_bytes()));
    }
    Ok(())
}

// Gives zeros, up to 100 a read, and fails once it has no reads left. It counts the bytes given.
#[derive(Drop)]
struct Endless {
    bytes_read: usize,
    reads_left: u32,
}

impl Read for Endless {
    fn read(&mut self, buf: &mut [u8]) -> io::Result<usize> {
        if self.reads_left == 0 {
            return Err(Error::from(ErrorKind::BrokenPipe));
        }
        self.reads_left -= 1;
        let count = buf.len().min(100);
        buf[..count].fill(0);
        self.bytes_read = self.bytes_read.saturating_add(count);
        Ok(count)
    }
}

#[test]
fn a_load_reads_one_byte_past_its_limit_at_most(rt: HostRuntime) -> Result<(), Fail> {
    let rows = [
        (1_000, u32::MAX, LoadFault::TooLong, 1_001),
        (0, u32::MAX, LoadFault::TooLong, 1),
        (1_000, 3, LoadFault::Failed, 300),
        (1_000, 0, LoadFault::Failed, 0),
    ];
    for (limit, reads, want, bytes) in rows {
        let mut reader = Endless {
            bytes_read: 0,
            reads_left: reads,
        };
        let loaded = read_within(rt.alloc(), &mut reader, limit);
        assert_eq!(rt; loaded.err(), Some(want));
        assert_eq!(rt; reader.bytes_read, bytes);
    }
    Ok(())
}

#[test]
fn disk_files_hand_out_noise_from_its_beginning(rt: HostRuntime) -> Result<(), Fail> {
    fs::create_dir(&rt, "drawer")?;
    fs::write(&rt, "dice", "61")?;
    fs::write(&rt, "empty", "")?;
    let mut files = DiskFiles::new(&rt);
    for name in ["missing", "drawer"] {
        assert_eq!(rt; files.noise(name).err(), Some(Failed));
    }
    let rows = [
        (
            "dice",
            [Sample::Byte(b'6'), Sample::Byte(b'1'), Sample::Ended],
        ),
        ("empty", [Sample::Ended; 3]),
        (
            "dice",
            [Sample::Byte(b'6'), Sample::Byte(b'1'), Sample::Ended],
        ),
    ];
    for (name, want) in rows {
        let Ok(mut noise) = files.noise(name) else {
            return Err(Fail::from(Error::from(ErrorKind::NotFound)));
        };
        for sample in want {
            assert_eq!(rt; noise.next(), sample);
        }
    }
    Ok(())
}

#[test]
fn file_noise_takes_one_byte_a_call(rt: HostRuntime) -> Result<(), Fail> {
    let (mut reader, mut writer) = io::pipe(&rt)?;
    assert_eq!(rt; StdSink::new(&mut writer).write(b"noise"), Ok(5));
    let mut noise = FileNoise::new(&mut reader);
    for want in [Sample::Byte(b'n'), Sample::Byte(b'o')] {
        assert_eq!(rt; noise.next(), want);
    }
    let mut buffer = [0; 8];
    assert_eq!(rt; StdSource::new(&mut reader).read(&mut buffer), Ok(3));
    assert_eq!(rt; buffer[..3], b"ise"[..]);
    drop(writer);
    assert_eq!(rt; FileNoise::new(&mut reader).next(), Sample::Ended);
    Ok(())
}

#[test]
fn sink_and_source_move_bytes_through_a_pipe(rt: HostRuntime) -> Result<(), Fail> {
    let (mut reader, mut writer) = io::pipe(&rt)?;
    let mut source = StdSource::new(&mut reader);
    let mut sink = StdSink::new(&mut writer);
    let mut buffer = [0; 8];
    for piece in ["ab", "c", "defgh"] {
        assert_eq!(rt; sink.write(piece.as_bytes()), Ok(piece.len()));
        assert_eq!(rt; source.read(&mut buffer), Ok(piece.len()));
        assert_eq!(rt; buffer[..piece.len()], piece.as_bytes()[..]);
    }
    drop(writer);
    assert_eq!(rt; source.read(&mut buffer), Ok(0));
    Ok(())
}

#[test]
fn sink_and_source_move_bytes_through_a_file(rt: HostRuntime) -> Result<(), Fail> {
    let mut sink = StdSink::new(fs::create(&rt, "kept")?);
    for piece in ["abc", "", "de"] {
        assert_eq!(rt; sink.write(piece.as_bytes()), Ok(piece.len()));
    }
    let mut source = StdSource::new(fs::open(&rt, "kept")?);
    let mut buffer = [0; 4];
    assert_eq!(rt; source.read(&mut buffer), Ok(4));
    assert_eq!(rt; buffer, *b"abcd");
    assert_eq!(rt; source.read(&mut buffer), Ok(1));
    assert_eq!(rt; buffer, *b"ebcd");
    assert_eq!(rt; source.read(&mut buffer), Ok(0));
    let mut unreadable = StdSource::new(fs::create(&rt, "written")?);
    assert_eq!(rt; unreadable.read(&mut buffer), Err(Failed));
    let mut unwritable = StdSink::new(fs::open(&rt, "kept")?);
    assert_eq!(rt; unwritable.write(b"f"), Err(Failed));
    Ok(())
}

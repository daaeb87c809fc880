// Why the program ended, other than at the end of its input.
ghost use Rattle.std.specs.Prelude.{◌≡◌};
ghost use Rattle.program_words.specs.Faults.{fault_of, status_of};

use std::fmt;

/// The reason for an exit status other than 0.
#[derive(Clone, Copy, Debug, PartialEq, Eq)]
pub enum RunFault {
    /// 1: a vector failed.
    VectorFailed,
    /// 2: the words are no form that the program knows.
    Usage,
    /// 3: the bytes of the input show a fault.
    BadFrame,
    /// 4: the input ended inside a frame.
    Truncated,
    /// 5: a read failed.
    ReadFailed,
    /// 6: a write failed.
    WriteFailed,
    /// 7: there was no memory to begin.
    OutOfMemory,
    /// 8: a file couldn't be read.
    FileFailed,
    /// 9: the image has more than 16,777,216 bytes.
    ImageTooLong,
    /// 10: a line is bad.
    BadLine,
    /// 11: the digest file isn't 64 hex digits and at most one LF.
    BadDigest,
    /// 12: the input has 2^40 bytes or more.
    StreamTooLong,
    /// 13: the file of the two keys hasn't 64 bytes.
    BadKeyFile,
    /// 14: the state isn't Officer.
    NotOfficer,
    /// 15: the backup is refused.
    BadBackup,
    /// 16: a pair of the transcript isn't a lawful step.
    NotLawful,
}

impl RunFault {
    /// The fault for an exit status. `None` exactly for 0 and for a number that is no exit status of the program.
    pub fn of(status: u8) -> Option<RunFault>
        ensures { result ≡ fault_of status }
    {
        match status {
            1 => Some(RunFault::VectorFailed),
            2 => Some(RunFault::Usage),
            3 => Some(RunFault::BadFrame),
            4 => Some(RunFault::Truncated),
            5 => Some(RunFault::ReadFailed),
            6 => Some(RunFault::WriteFailed),
            7 => Some(RunFault::OutOfMemory),
            8 => Some(RunFault::FileFailed),
            9 => Some(RunFault::ImageTooLong),
            10 => Some(RunFault::BadLine),
            11 => Some(RunFault::BadDigest),
            12 => Some(RunFault::StreamTooLong),
            13 => Some(RunFault::BadKeyFile),
            14 => Some(RunFault::NotOfficer),
            15 => Some(RunFault::BadBackup),
            16 => Some(RunFault::NotLawful),
            _ => None,
        }
    }

    /// The exit status for the fault.
    pub fn status(self) -> u8
        ensures { result ≡ status_of self }
    {
        match self {
            RunFault::VectorFailed => 1,
            RunFault::Usage => 2,
            RunFault::BadFrame => 3,
            RunFault::Truncated => 4,
            RunFault::ReadFailed => 5,
            RunFault::WriteFailed => 6,
            RunFault::OutOfMemory => 7,
            RunFault::FileFailed => 8,
            RunFault::ImageTooLong => 9,
            RunFault::BadLine => 10,
            RunFault::BadDigest => 11,
            RunFault::StreamTooLong => 12,
            RunFault::BadKeyFile => 13,
            RunFault::NotOfficer => 14,
            RunFault::BadBackup => 15,
            RunFault::NotLawful => 16,
        }
    }
}

/// The text that the program writes to standard error. That for `Usage` names the words that the program knows.
impl fmt::Display for RunFault {
    ghost use Rattle.std.specs.Prelude.{Some};
    ghost use Rattle.program_words.specs.Faults.{text_of};

    ghost output = { λ fault. Some (text_of fault) };

    fn fmt<W: fmt::Write>(&self, f: &mut fmt::Formatter<W>) -> fmt::Result {
        f.write_str(match self {
            RunFault::VectorFailed => "a vector failed",
            RunFault::Usage =>
                "usage: serve, operate, digest, session, vectors, backup, restore or check",
            RunFault::BadFrame => "bad frame",
            RunFault::Truncated => "truncated frame",
            RunFault::ReadFailed => "read failed",
            RunFault::WriteFailed => "write failed",
            RunFault::OutOfMemory => "out of memory",
            RunFault::FileFailed => "file failed",
            RunFault::ImageTooLong => "image too long",
            RunFault::BadLine => "bad line",
            RunFault::BadDigest => "bad digest file",
            RunFault::StreamTooLong => "stream too long",
            RunFault::BadKeyFile => "bad key file",
            RunFault::NotOfficer => "not officer",
            RunFault::BadBackup => "bad backup",
            RunFault::NotLawful => "not lawful",
        })
    }
}

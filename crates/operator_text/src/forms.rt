// The forms of lines: for each service its name, the words behind the name, and how their values make the command's body.
ghost use Rattle.std.specs.Prelude.{◌≡◌};
ghost use Rattle.operator_text.specs.LineForms.{line_name, word_types, body_fields};

use Field::{Length, LongLength, Value};
use WordType::{Alg, Byte, Bytes, Domain, Export, Kind, Quad, Role, ShortBytes};
use service_table::Service;

/// What a word of a line is.
#[derive(Clone, Copy, Debug, PartialEq, Eq)]
pub enum WordType {
    /// A number of one byte.
    Byte,
    /// A number of four bytes.
    Quad,
    /// The name of a role, or `none`.
    Role,
    /// The name of a parameter's kind.
    Kind,
    /// The name of a parameter's domain.
    Domain,
    /// Whether a parameter may leave the module wrapped.
    Export,
    /// The name of a hash function.
    Alg,
    /// Bytes, of any number.
    Bytes,
    /// At most 255 bytes.
    ShortBytes,
}

/// A field of a command's body. Words are counted from 0, behind the name of the service.
#[derive(Clone, Copy, Debug, PartialEq, Eq)]
pub enum Field {
    /// The value of the word.
    Value(usize),
    /// The number of bytes of the word's value, in one byte.
    Length(usize),
    /// The number of bytes of the word's value, in four bytes.
    LongLength(usize),
}

/// The word by which a line names the service.
pub fn line_name(service: Service) -> &'static [u8]
    ensures { result.now ≡ line_name service }
{
    match service {
        Service::PowerOn => b"poweron",
        Service::TestStep => b"step",
        Service::RequestTests => b"tests",
        Service::ShowStatus => b"status",
        Service::ShowVersion => b"version",
        Service::SelectRole => b"role",
        Service::Reset => b"reset",
        Service::EntryBegin => b"begin",
        Service::EntryBytes => b"bytes",
        Service::EntryCommit => b"commit",
        Service::EntryAbort => b"abort",
        Service::Zeroise => b"zeroise",
        Service::ZeroiseAll => b"zeroiseall",
        Service::ShowSlot => b"slot",
        Service::ZeroiseTree => b"zeroisetree",
        Service::Hash => b"hash",
        Service::Mac => b"mac",
        Service::MacVerify => b"verify",
        Service::Seal => b"seal",
        Service::SealIv => b"sealiv",
        Service::Open => b"open",
        Service::Wrap => b"wrap",
        Service::Unwrap => b"unwrap",
        Service::WrapPad => b"wrappad",
        Service::UnwrapPad => b"unwrappad",
        Service::Derive => b"derive",
        Service::Random => b"random",
        Service::Generate => b"generate",
        Service::Reseed => b"reseed",
    }
}

/// What the words behind the name are.
pub fn word_types(service: Service) -> &'static [WordType]
    ensures { result.now ≡ word_types service }
{
    match service {
        Service::PowerOn => &[Quad],
        Service::TestStep => &[],
        Service::RequestTests => &[],
        Service::ShowStatus => &[],
        Service::ShowVersion => &[],
        Service::SelectRole => &[Role],
        Service::Reset => &[],
        Service::EntryBegin => &[Byte, Kind, Domain, Export, Quad, Byte],
        Service::EntryBytes => &[Bytes],
        Service::EntryCommit => &[Bytes],
        Service::EntryAbort => &[],
        Service::Zeroise => &[Byte],
        Service::ZeroiseAll => &[],
        Service::ShowSlot => &[Byte],
        Service::ZeroiseTree => &[Byte],
        Service::Hash => &[Alg, Bytes],
        Service::Mac => &[Byte, Alg, Byte, Bytes],
        Service::MacVerify => &[Byte, Alg, ShortBytes, Bytes],
        Service::Seal => &[Byte, Byte, Bytes, Bytes],
        Service::SealIv => &[Byte, Byte, ShortBytes, Bytes, Bytes],
        Service::Open => &[Byte, ShortBytes, Bytes, Bytes, ShortBytes],
        Service::Wrap => &[Byte, Byte],
        Service::Unwrap => &[Byte, Byte, Kind, Export, Quad, Bytes],
        Service::WrapPad => &[Byte, Byte],
        Service::UnwrapPad => &[Byte, Byte, Kind, Export, Quad, Bytes],
        Service::Derive => &[Byte, Byte, Kind, Export, Quad, Byte, ShortBytes, Bytes],
        Service::Random => &[Quad, Bytes],
        Service::Generate => &[Byte, Kind, Domain, Export, Quad, Byte],
        Service::Reseed => &[Bytes],
    }
}

/// The fields of the body.
pub fn body_fields(service: Service) -> &'static [Field]
    ensures { result.now ≡ body_fields service }
{
    match service {
        Service::PowerOn => &[Value(0)],
        Service::TestStep => &[],
        Service::RequestTests => &[],
        Service::ShowStatus => &[],
        Service::ShowVersion => &[],
        Service::SelectRole => &[Value(0)],
        Service::Reset => &[],
        Service::EntryBegin => &[Value(0), Value(1), Value(2), Value(3), Value(4), Value(5)],
        Service::EntryBytes => &[Value(0)],
        Service::EntryCommit => &[Value(0)],
        Service::EntryAbort => &[],
        Service::Zeroise => &[Value(0)],
        Service::ZeroiseAll => &[],
        Service::ShowSlot => &[Value(0)],
        Service::ZeroiseTree => &[Value(0)],
        Service::Hash => &[Value(0), Value(1)],
        Service::Mac => &[Value(0), Value(1), Value(2), Value(3)],
        Service::MacVerify => &[Value(0), Value(1), Length(2), Value(2), Value(3)],
        Service::Seal => &[Value(0), Value(1), LongLength(2), Value(2), Value(3)],
        Service::SealIv => &[
            Value(0),
            Value(1),
            Length(2),
            LongLength(3),
            Value(2),
            Value(3),
            Value(4),
        ],
        Service::Open => &[
            Value(0),
            Length(4),
            Length(1),
            LongLength(2),
            Value(1),
            Value(2),
            Value(3),
            Value(4),
        ],
        Service::Wrap => &[Value(0), Value(1)],
        Service::Unwrap => &[Value(0), Value(1), Value(2), Value(3), Value(4), Value(5)],
        Service::WrapPad => &[Value(0), Value(1)],
        Service::UnwrapPad => &[Value(0), Value(1), Value(2), Value(3), Value(4), Value(5)],
        Service::Derive => &[
            Value(0),
            Value(1),
            Value(2),
            Value(3),
            Value(4),
            Value(5),
            Length(6),
            Value(6),
            Value(7),
        ],
        Service::Random => &[Value(0), Value(1)],
        Service::Generate => &[Value(0), Value(1), Value(2), Value(3), Value(4), Value(5)],
        Service::Reseed => &[Value(0)],
    }
}

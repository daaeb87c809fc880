//! The buffer that input and output share.
ghost use Rattle.std.specs.Prelude.{◌≡◌, ◌≤◌, ◌++◌, take, drop};
ghost use Rattle.bits_core.specs.ByteList.{zero_padded};

use bits_core::wipe;

/// Puts a header before the first `count` bytes, and zeros after them.
pub(crate) fn put_header(buf: &mut [u8; 80], header: &[u8; 8], count: usize)
    requires { count ≤ 64 }
    ensures { buf.new ≡ zero_padded 80 (header.now ++ take count buf.old) }
{
    buf.rotate_right(8);
    buf[..8].copy_from_slice(header);
    wipe(&mut buf[count + 8..]);
}

/// Takes the first 8 bytes away and keeps `count` bytes after them, with zeros after these.
pub(crate) fn take_header(buf: &mut [u8; 80], count: usize)
    requires { count ≤ 64 }
    ensures { buf.new ≡ zero_padded 80 (take count (drop 8 buf.old)) }
{
    buf.rotate_left(8);
    wipe(&mut buf[count..]);
}

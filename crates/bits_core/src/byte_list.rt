//! Calls on slices of bytes.
ghost use Rattle.std.specs.Prelude.{◌≡◌, ◌↔◌, length, IsTrue};
ghost use Rattle.bits_core.specs.ByteList.{zeros, xor_bytes};

/// Makes all bytes zero.
pub fn wipe(bytes: &mut [u8])
    ensures { bytes.new ≡ zeros (length bytes.old) }
{
    bytes.fill(0);
}

/// Whether two lists of bytes are equal. It returns at once where their lengths differ, and else reads each byte of both, wherever
/// they differ.
pub fn same(a: &[u8], b: &[u8]) -> bool
    ensures { IsTrue result ↔ (a.now ≡ b.now) }
{
    if a.len() != b.len() {
        return false;
    }
    let mut differing = 0;
    for i in 0..a.len() {
        differing |= a[i] ^ b[i];
    }
    differing == 0
}

/// Adds the bytes of `b` to those of `a`, bit by bit modulo 2. Both have the same length.
pub fn xor_into(a: &mut [u8], b: &[u8])
    requires { length a.old ≡ length b.now }
    ensures { a.new ≡ xor_bytes a.old b.now }
{
    for i in 0..a.len() {
        a[i] ^= b[i];
    }
}

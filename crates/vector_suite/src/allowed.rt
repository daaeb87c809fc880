//! The lengths that the parts of a vector may have.
ghost use Rattle.std.specs.Prelude.{◌≡◌};
ghost use Rattle.bits_core.specs.Parameters.{is_aes_length};
ghost use Rattle.vector_suite.specs.Lengths.{is_within, is_wrappable, is_unwrappable, are_sealable, are_derivable, has_allowed_lengths};

use crate::vector::Vector;
use bits_core::LARGEST_PAYLOAD;

fn is_aes_length(n: usize) -> bool
    ensures { result ≡ is_aes_length n }
{
    n == 16 || n == 24 || n == 32
}

fn is_within(low: usize, high: usize, n: usize) -> bool
    ensures { result ≡ is_within low high n }
{
    low <= n && n <= high
}

fn is_wrappable(pad: bool, n: usize) -> bool
    ensures { result ≡ is_wrappable pad n }
{
    if pad {
        is_within(1, 64, n)
    } else {
        is_within(16, 64, n) && n % 8 == 0
    }
}

fn is_unwrappable(pad: bool, n: usize) -> bool
    ensures { result ≡ is_unwrappable pad n }
{
    if pad {
        is_within(16, 72, n) && n % 8 == 0
    } else {
        is_within(24, 72, n) && n % 8 == 0
    }
}

fn are_sealable(key: usize, iv: usize, aad: usize, text: usize, tag: usize) -> bool
    ensures { result ≡ are_sealable key iv aad text tag }
{
    is_aes_length(key)
        && is_within(1, 255, iv)
        && aad <= LARGEST_PAYLOAD
        && text <= LARGEST_PAYLOAD
        && is_within(12, 16, tag)
}

fn are_derivable(label: usize, context: usize, out: usize) -> bool
    ensures { result ≡ are_derivable label context out }
{
    label <= 255 && context <= 255 && is_within(1, 65536, out)
}

/// Whether each part has a length that it may have.
pub fn has_allowed_lengths(vector: &Vector) -> bool
    ensures { result ≡ has_allowed_lengths vector.now }
{
    match vector {
        Vector::Hash { .. } => true,
        Vector::Mac { .. } => true,
        Vector::Seal {
            key,
            iv,
            aad,
            text,
            tag,
            ..
        } => are_sealable(key.len(), iv.len(), aad.len(), text.len(), tag.len()),
        Vector::Open {
            key,
            iv,
            aad,
            text,
            tag,
            ..
        } => are_sealable(key.len(), iv.len(), aad.len(), text.len(), tag.len()),
        Vector::Wrap { pad, key, text, .. } => is_aes_length(key.len())
            && is_wrappable(*pad, text.len()),
        Vector::Unwrap { pad, key, text, .. } => is_aes_length(key.len())
            && is_unwrappable(*pad, text.len()),
        Vector::Derive {
            label,
            context,
            out,
            ..
        } => are_derivable(label.len(), context.len(), out.len()),
        Vector::Drbg { out, .. } => is_within(1, 65536, out.len()),
        Vector::Cmac { key, .. } => is_aes_length(key.len()),
        Vector::CmacKdf {
            key,
            label,
            context,
            out,
            ..
        } => is_aes_length(key.len()) && are_derivable(label.len(), context.len(), out.len()),
    }
}

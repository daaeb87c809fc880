//! What is measured.
use ghash_core::Table;
use std::alloc::{AllocError, Global};

/// A way in which GHASH is taken, or the filling of a table.
#[derive(Clone, Copy)]
pub enum Way {
    Shuffles,
    Lanes,
    Table,
    Plain,
    Fill,
}

impl Way {
    /// The way with a name.
    pub fn of(name: &str) -> Option<Way> {
        match name {
            "shuffles" => Some(Way::Shuffles),
            "lanes" => Some(Way::Lanes),
            "table" => Some(Way::Table),
            "plain" => Some(Way::Plain),
            "fill" => Some(Way::Fill),
            _ => None,
        }
    }
}

/// A text of this length; byte i is i modulo 251.
pub fn text(alloc: Global, length: usize) -> Result<Vec<u8>, AllocError> {
    let mut text = Vec::with_capacity(alloc, length)?;
    for i in 0..length {
        text.push((i % 251) as u8)?;
    }
    Ok(text)
}

/// The running value after `count` times the text, for the subkey of the key of 16 zero bytes. Where filling is
/// measured, the table is filled each time anew, for the value before.
pub fn repeated(way: Way, text: &[u8], count: u32) -> [u8; 16] {
    let subkey = 0x66e94bd4_ef8a2c3b_884cfa59_ca342b2e_u128;
    let mut table = Table::empty();
    table.fill(&subkey.to_be_bytes());
    let mut acc = [0u8; 16];
    for _ in 0..count {
        match way {
            Way::Shuffles => table.absorb(&mut acc, text),
            Way::Lanes => table.absorb_lanes(&mut acc, text),
            Way::Table => table.absorb_table(&mut acc, text),
            Way::Plain => table.absorb_plain(&mut acc, text),
            Way::Fill => {
                table.fill(&acc);
                table.absorb(&mut acc, text);
            }
        }
    }
    acc
}

//! What a vector's line says.
use bits_core::Alg;
use cmac_core::Mode;
use line_words::HexWord;

/// The answer that is expected of a call that may refuse.
#[derive(Drop)]
pub enum Expected<'a> {
    Refusal,
    Bytes(HexWord<'a>),
}

/// A vector: what a function is given, and the answer that is expected.
#[derive(Drop)]
pub enum Vector<'a> {
    Hash {
        alg: Alg,
        text: HexWord<'a>,
        out: HexWord<'a>,
    },
    Mac {
        alg: Alg,
        key: HexWord<'a>,
        text: HexWord<'a>,
        out: HexWord<'a>,
    },
    Seal {
        key: HexWord<'a>,
        iv: HexWord<'a>,
        aad: HexWord<'a>,
        text: HexWord<'a>,
        out: HexWord<'a>,
        tag: HexWord<'a>,
    },
    Open {
        key: HexWord<'a>,
        iv: HexWord<'a>,
        aad: HexWord<'a>,
        text: HexWord<'a>,
        tag: HexWord<'a>,
        out: Expected<'a>,
    },
    Wrap {
        pad: bool,
        key: HexWord<'a>,
        text: HexWord<'a>,
        out: HexWord<'a>,
    },
    Unwrap {
        pad: bool,
        key: HexWord<'a>,
        text: HexWord<'a>,
        out: Expected<'a>,
    },
    Derive {
        key: HexWord<'a>,
        label: HexWord<'a>,
        context: HexWord<'a>,
        out: HexWord<'a>,
    },
    Drbg {
        entropy: HexWord<'a>,
        nonce: HexWord<'a>,
        personal: HexWord<'a>,
        out: HexWord<'a>,
    },
    Cmac {
        key: HexWord<'a>,
        text: HexWord<'a>,
        out: HexWord<'a>,
    },
    CmacKdf {
        mode: Mode,
        key: HexWord<'a>,
        label: HexWord<'a>,
        context: HexWord<'a>,
        out: HexWord<'a>,
    },
}

//! Rows of sessions, written by checks/session_rows.py; see there.

/// A seed, a count, the numbers of the services of the first eight commands that are drawn, the lengths of their bodies, and the
/// FNV-1a check sum of all commands.
pub(crate) type Row = (u64, u32, [u8; 8], [usize; 8], u64);

pub(crate) const ROWS: [Row; 3] = [
    (
        0,
        40,
        [0x04, 0x11, 0x13, 0x11, 0x13, 0x04, 0x10, 0x04],
        [0, 2289, 1662, 1565, 1362, 0, 148, 0],
        0x963589db32379179,
    ),
    (
        7,
        200,
        [0x10, 0x0e, 0x13, 0x13, 0x13, 0x0e, 0x10, 0x10],
        [809, 1, 1376, 701, 375, 1, 896, 625],
        0x614577d340afc72d,
    ),
    (
        18446744073709551615,
        40,
        [0x11, 0x0e, 0x1b, 0x15, 0x10, 0x04, 0x1b, 0x0e],
        [906, 1, 4, 2307, 2084, 0, 4, 1],
        0x2f8cc35396f7dc6f,
    ),
];

//! Values from outside: published vectors, and the rows of `checks/gcm_rows.py`.
ghost use Rattle.std.specs.Prelude.{◌<◌, ◌≤◌, length};
ghost use Rattle.gcm_mode.specs.Filled.{IsReady};
ghost use Rattle.gcm_mode.specs.Gcm.{IsIv, IsSealable};

use crate::{Prepared, open, seal};
use bits_core::same;
use std::process::Abort;

/// Bytes of key, IV, additional data and text; the last 16 bytes of the ciphertext, and the tag.
const ROWS: [(usize, usize, usize, usize, u128, u128); 41] = [
    (
        16,
        12,
        0,
        0,
        0x00000000_00000000_00000000_00000000,
        0xa4f64302_7cba48ea_b8f8aee8_de5a0923,
    ),
    (
        24,
        12,
        0,
        0,
        0x00000000_00000000_00000000_00000000,
        0x43a0d88f_801739b5_a346b1b0_4e23524f,
    ),
    (
        32,
        12,
        0,
        0,
        0x00000000_00000000_00000000_00000000,
        0xf58f03fc_22950d58_0bd67424_469d997c,
    ),
    (
        16,
        12,
        0,
        1,
        0x00000000_00000000_00000000_0000002d,
        0x9df66d29_5af54e60_0b636531_66d2c5d9,
    ),
    (
        16,
        12,
        1,
        0,
        0x00000000_00000000_00000000_00000000,
        0xa9df4695_ee9ee5d5_2fcfecae_fd2470cf,
    ),
    (
        24,
        12,
        0,
        15,
        0x000ee436_1cfa47d9_c5161c37_4e63c320,
        0xe2ed110e_43f501b9_f37308d1_9bdfbd66,
    ),
    (
        32,
        12,
        0,
        16,
        0x475544a2_04d87a44_7f9ac080_1dab257d,
        0xd14eaba7_bb25d093_fd16461d_8f2f94f2,
    ),
    (
        16,
        12,
        0,
        17,
        0xfa9ca62a_4273b372_c39068df_c4d199c4,
        0xa3ee994b_a2b43373_aff720b9_ea94bf68,
    ),
    (
        16,
        12,
        15,
        0,
        0x00000000_00000000_00000000_00000000,
        0x94d26ae7_c715343f_ea673cab_00f94b8d,
    ),
    (
        24,
        12,
        16,
        0,
        0x00000000_00000000_00000000_00000000,
        0xd85702f0_1bca76d1_6bacdd7c_2f74ed04,
    ),
    (
        32,
        12,
        17,
        0,
        0x00000000_00000000_00000000_00000000,
        0x29495bf5_755099b9_2b9b2842_f476f6f2,
    ),
    (
        16,
        12,
        20,
        60,
        0xd6a596eb_44c603dd_caf580e6_10fbedaa,
        0x480308b6_05af302b_2b765706_38fe6b81,
    ),
    (
        24,
        12,
        20,
        60,
        0x537edd27_2014a9a3_9386475a_6a0f428f,
        0x8d710c58_5b73fd55_2271d923_36afd126,
    ),
    (
        32,
        12,
        20,
        60,
        0xb763269e_85394ebd_520d7cee_45b5be36,
        0xfb925348_99e3af02_6fe90455_91dcbb50,
    ),
    (
        16,
        12,
        13,
        31,
        0x99c48174_e9587eca_853d5d39_0a4a2ce5,
        0xffa3c2c0_98d3e1ef_a40836a1_0cf16333,
    ),
    (
        16,
        12,
        16,
        32,
        0xc48174e9_587eca85_3d5d390a_4a2ce50c,
        0xb7b77169_b662b075_29ecb0c7_242b96aa,
    ),
    (
        24,
        12,
        33,
        33,
        0x834ad910_e73d0811_bff284fa_11dd26f1,
        0xa2e6ff96_b06954b4_1b842d17_9a2536aa,
    ),
    (
        32,
        12,
        64,
        64,
        0x85394ebd_520d7cee_45b5be36_1daca19f,
        0x2b69b281_dcc0a8fd_be70e44e_4f94d6b2,
    ),
    (
        32,
        12,
        100,
        255,
        0x4b597543_70ccff11_b96c4c4b_f1d3e34b,
        0x147e7fb7_c6582956_090c9f81_8944aff4,
    ),
    (
        16,
        1,
        0,
        16,
        0x526a487b_1e26783b_5f1add45_808a36c1,
        0xf7182239_82558293_c381d5e1_456e08b6,
    ),
    (
        16,
        7,
        3,
        20,
        0xa44b6002_f0cf0d3c_1f0399c8_d6de779c,
        0x9bfa6d22_f0d2f446_dd4e5c5d_55d85e99,
    ),
    (
        24,
        7,
        0,
        0,
        0x00000000_00000000_00000000_00000000,
        0xd5583730_a3a189ca_b946245b_989e6892,
    ),
    (
        32,
        7,
        16,
        16,
        0x6c24ac55_fc9014c5_c54011a4_83a58c1b,
        0x4fa1bf2f_9eda2a77_13689c31_02d7382c,
    ),
    (
        16,
        8,
        20,
        60,
        0xbc940d2d_b04a43a0_539eb930_a9285644,
        0x989aaac7_013f674e_a48263ad_78be6011,
    ),
    (
        24,
        8,
        0,
        0,
        0x00000000_00000000_00000000_00000000,
        0xc6bf2d4b_022bf83e_7261272f_eb39cd1e,
    ),
    (
        32,
        8,
        1,
        1,
        0x00000000_00000000_00000000_000000fc,
        0x596594cd_fab573f2_9d8ff6b9_a684cb87,
    ),
    (
        16,
        11,
        5,
        5,
        0x00000000_00000000_00000090_20b159c1,
        0x4dd38f5c_dd767cd9_ed5da3f9_eb0ae148,
    ),
    (
        32,
        13,
        5,
        5,
        0x00000000_00000000_000000e6_9d71ee53,
        0xeafc0295_418be65a_be73be0f_5fa0bd1f,
    ),
    (
        16,
        15,
        0,
        32,
        0xa41ab71e_dd97ce3d_c774cd45_45050ee5,
        0x435696a5_82a2459d_0b820917_19a50b16,
    ),
    (
        24,
        16,
        0,
        32,
        0xa162809e_d2ecbf5d_ce5eb9b0_12f13fcd,
        0xcde878e6_42bce184_f2014c63_4304bfe8,
    ),
    (
        32,
        17,
        0,
        32,
        0x97a823d9_de8aa2e5_3e3e523c_553d200f,
        0xf1f32da4_455333f4_3e03cf18_37991b78,
    ),
    (
        16,
        16,
        16,
        16,
        0x8489e5b7_3e9f9c40_f2b53de8_9517a4e8,
        0xbe9f00e3_32bbfc52_a551aa8a_14166677,
    ),
    (
        16,
        60,
        20,
        60,
        0x323512a3_7e6761be_4faaf579_4c8deba5,
        0x16c27a0a_f1f513ef_99849608_b008f0bb,
    ),
    (
        24,
        60,
        20,
        60,
        0xfbe736ac_a7fba4b4_795d7921_b040f055,
        0xa10e52d4_f20e007e_30725dd5_78f1b68e,
    ),
    (
        32,
        60,
        20,
        60,
        0xe3829519_58f37a53_4e878b35_099d4ce0,
        0x6a6410e5_0c466d27_23b7cfe2_c8c363ff,
    ),
    (
        32,
        64,
        0,
        48,
        0x8df053ca_a78fbb7f_0450eeac_feb6ce89,
        0xd8447efb_e3dc11b9_552700a9_683dc7b6,
    ),
    (
        16,
        65,
        7,
        49,
        0x7226e015_5215b3dd_84fee15c_11208634,
        0xdc783138_2e6ed1af_29bf95b9_b0114905,
    ),
    (
        24,
        127,
        31,
        65,
        0x36e5ecf9_322a4566_f18fb226_d72f7676,
        0x53ad6d0d_4ab59387_6fcb6d6f_89fc0a1e,
    ),
    (
        32,
        128,
        32,
        66,
        0xc9b9f663_36460203_2d6b82ae_338e2699,
        0x337151ed_795ebbd7_a9c3c85c_b277a598,
    ),
    (
        16,
        254,
        0,
        80,
        0xf7c2f0c6_5f4f96ee_6e5cf9c1_97810b5c,
        0xbe37866e_1560cf2e_732c4a59_95b5e468,
    ),
    (
        32,
        255,
        90,
        200,
        0x2ff8e946_f2c90be2_54aca978_47be6286,
        0x280bb60e_ae1031a6_1877cee5_5ef64dab,
    ),
];

/// Byte i is `factor` times (i + 1), modulo 256.
fn pattern(factor: usize) -> [u8; 256]
    requires { factor < 256 }
{
    let mut bytes = [0u8; 256];
    for i in 0usize..256 {
        bytes[i] = (factor * (i + 1) % 256) as u8;
    }
    bytes
}

/// What is kept of the first 16, 24 or 32 bytes of a key.
fn prepared(key: &[u8; 256], length: usize) -> Prepared
    ensures { IsReady result }
{
    let mut prepared = Prepared::empty();
    match length {
        16 => prepared.fill(&key[..16]),
        24 => prepared.fill(&key[..24]),
        _ => prepared.fill(&key[..32]),
    }
    prepared
}

/// The tag opens the ciphertext, and gives the text.
fn opens(
    rt: &impl Abort,
    prepared: &Prepared,
    iv: &[u8],
    aad: &[u8],
    sealed: &[u8],
    tag: &[u8],
    text: &[u8],
)
    requires ready { IsReady prepared.now }
    requires iv { IsIv iv.now }
    requires aad { IsSealable aad.now }
{
    let mut work = [0u8; 256];
    assert!(rt; sealed.len() <= 256 && 12 <= tag.len() && tag.len() <= 16);
    let work = &mut work[..sealed.len()];
    work.copy_from_slice(sealed);
    let answer = open(prepared, iv, aad, work, tag);
    assert!(rt; answer, "a tag of {} bytes is refused", tag.len());
    assert!(rt; same(work, text), "another text");
}

/// The tag is refused, and what stands in the text's place is zero.
fn refuses(rt: &impl Abort, prepared: &Prepared, iv: &[u8], aad: &[u8], sealed: &[u8], tag: &[u8])
    requires ready { IsReady prepared.now }
    requires iv { IsIv iv.now }
    requires aad { IsSealable aad.now }
{
    let mut work = [0u8; 256];
    assert!(rt; sealed.len() <= 256 && 12 <= tag.len() && tag.len() <= 16);
    let work = &mut work[..sealed.len()];
    work.copy_from_slice(sealed);
    let answer = open(prepared, iv, aad, work, tag);
    assert!(rt; !answer, "opened");
    for byte in work {
        assert_eq!(rt; *byte, 0, "a byte is left");
    }
}

/// The bytes with the lowest bit of the last one turned.
fn turned(bytes: &[u8]) -> [u8; 256]
    requires { length bytes.now ≤ 256 }
{
    let mut copy = [0u8; 256];
    copy[..bytes.len()].copy_from_slice(bytes);
    if bytes.len() > 0 {
        copy[bytes.len() - 1] ^= 1;
    }
    copy
}

/// A turned bit of tag, IV, additional data or ciphertext is refused.
fn refuses_turned(
    rt: &impl Abort,
    prepared: &Prepared,
    iv: &[u8],
    aad: &[u8],
    sealed: &[u8],
    tag: &[u8; 16],
)
    requires ready { IsReady prepared.now }
    requires iv { IsIv iv.now }
    requires aad { length aad.now ≤ 256 }
    requires sealed { length sealed.now ≤ 256 }
{
    for length in 12usize..17 {
        refuses(
            rt,
            prepared,
            iv,
            aad,
            sealed,
            &turned(&tag[..length])[..length],
        );
    }
    refuses(rt, prepared, &turned(iv)[..iv.len()], aad, sealed, tag);
    if aad.len() > 0 {
        refuses(rt, prepared, iv, &turned(aad)[..aad.len()], sealed, tag);
    }
    if sealed.len() > 0 {
        refuses(rt, prepared, iv, aad, &turned(sealed)[..sealed.len()], tag);
    }
}

/// Seals the row's inputs and opens them again.
fn try_row(rt: &impl Abort, row: (usize, usize, usize, usize, u128, u128)) {
    let (key_length, iv_length, aad_length, text_length, last, want) = row;
    assert!(rt; 1 <= iv_length && iv_length <= 255 && aad_length <= 256 && text_length <= 256);
    let prepared = prepared(&pattern(7), key_length);
    let ivs = pattern(11);
    let iv = &ivs[..iv_length];
    let aads = pattern(13);
    let aad = &aads[..aad_length];
    let texts = pattern(17);
    let text = &texts[..text_length];
    let mut room = pattern(17);
    let work = &mut room[..text_length];
    let mut tag = [0u8; 16];
    seal(&prepared, iv, aad, work, &mut tag);
    assert_eq!(rt; tag, want.to_be_bytes(), "the tag of {row:?}");
    let ending = last.to_be_bytes();
    let shown = text_length.min(16);
    assert!(rt;
        same(&work[text_length - shown..], &ending[16 - shown..]),
        "the ciphertext of {row:?}"
    );
    for length in 12usize..17 {
        opens(rt, &prepared, iv, aad, work, &tag[..length], text);
    }
    refuses_turned(rt, &prepared, iv, aad, work, &tag);
}

#[test]
fn agrees_with_the_standard(rt: HostRuntime) {
    for row in ROWS {
        try_row(&rt, row);
    }
}

/// The first cases of the GCM submission: keys of zeros, 12 zero bytes of IV, no additional data.
#[test]
fn agrees_with_published_vectors(rt: HostRuntime) {
    let zeros = [0u8; 256];
    let rows: [(usize, usize, u128, u128); 4] = [
        (16, 0, 0, 0x58e2fcce_fa7e3061_367f1d57_a4e7455a),
        (
            16,
            16,
            0x0388dace_60b6a392_f328c2b9_71b2fe78,
            0xab6e47d4_2cec13bd_f53a67b2_1257bddf,
        ),
        (32, 0, 0, 0x530f8afb_c74536b9_a963b4f1_c4cb738b),
        (
            32,
            16,
            0xcea7403d_4d606b6e_074ec5d3_baf39d18,
            0xd0d1c8a7_99996bf0_265b98b5_d48ab919,
        ),
    ];
    for (key_length, text_length, ciphertext, want) in rows {
        let prepared = prepared(&zeros, key_length);
        let mut work = [0u8; 16];
        let mut tag = [0u8; 16];
        seal(
            &prepared,
            &zeros[..12],
            &[],
            &mut work[..text_length.min(16)],
            &mut tag,
        );
        assert_eq!(rt; tag, want.to_be_bytes());
        assert_eq!(rt; work, ciphertext.to_be_bytes());
    }
}

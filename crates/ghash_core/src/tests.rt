//! Values from outside: rows of `checks/ghash_rows.py` and the second case of the GCM submission.
use crate::Table;
use std::alloc::{AllocError, Global};
use std::test::Fail;

/// Subkey, value before, number of bytes, value after.
const ROWS: [(u128, u128, usize, u128); 28] = [
    (
        0x66e94bd4_ef8a2c3b_884cfa59_ca342b2e,
        0x00000000_00000000_00000000_00000000,
        0,
        0x00000000_00000000_00000000_00000000,
    ),
    (
        0x66e94bd4_ef8a2c3b_884cfa59_ca342b2e,
        0x00000000_00000000_00000000_00000000,
        1,
        0xaf9e77b8_fa613ce8_9931aa1d_d4bcb8fa,
    ),
    (
        0x66e94bd4_ef8a2c3b_884cfa59_ca342b2e,
        0x00000000_00000000_00000000_00000000,
        15,
        0xca4fedbe_fbbe0b66_fb13a48a_021b9da7,
    ),
    (
        0x66e94bd4_ef8a2c3b_884cfa59_ca342b2e,
        0x00000000_00000000_00000000_00000000,
        16,
        0x0a56c399_aafa93b7_4810ab47_06ada5ba,
    ),
    (
        0x66e94bd4_ef8a2c3b_884cfa59_ca342b2e,
        0x00000000_00000000_00000000_00000000,
        17,
        0x273339a7_aa7a2bf1_4dffe296_ed4fe10e,
    ),
    (
        0x66e94bd4_ef8a2c3b_884cfa59_ca342b2e,
        0x00000000_00000000_00000000_00000000,
        63,
        0x08adb815_5e6be455_8c010a1f_746b2173,
    ),
    (
        0x66e94bd4_ef8a2c3b_884cfa59_ca342b2e,
        0x00000000_00000000_00000000_00000000,
        64,
        0x59a02fbc_0a8c1a2a_cf961b36_9ac4ab1e,
    ),
    (
        0x66e94bd4_ef8a2c3b_884cfa59_ca342b2e,
        0x00000000_00000000_00000000_00000000,
        65,
        0xf4522798_d81b2ec1_75a5a4b3_08d8ffb4,
    ),
    (
        0x66e94bd4_ef8a2c3b_884cfa59_ca342b2e,
        0x00000000_00000000_00000000_00000000,
        127,
        0x8b17a2b1_23303752_cb663719_a9c6fe26,
    ),
    (
        0x66e94bd4_ef8a2c3b_884cfa59_ca342b2e,
        0x00000000_00000000_00000000_00000000,
        128,
        0x2f434717_3c200198_55413a29_6b9b42ac,
    ),
    (
        0x66e94bd4_ef8a2c3b_884cfa59_ca342b2e,
        0x00000000_00000000_00000000_00000000,
        255,
        0x5b78d7d9_c7cfd6f4_3316cd85_b000c1e8,
    ),
    (
        0x66e94bd4_ef8a2c3b_884cfa59_ca342b2e,
        0x00000000_00000000_00000000_00000000,
        256,
        0x59426e75_aa7a90e7_c411d75b_450159d8,
    ),
    (
        0x66e94bd4_ef8a2c3b_884cfa59_ca342b2e,
        0x00000000_00000000_00000000_00000000,
        257,
        0xfd1bed47_51cb9fe4_4eaa86cf_b91dc469,
    ),
    (
        0x66e94bd4_ef8a2c3b_884cfa59_ca342b2e,
        0x00000000_00000000_00000000_00000000,
        65594,
        0x272850a2_8413f9ab_01deb6f5_ebf5e369,
    ),
    (
        0xdc95c078_a2408989_ad48a214_92842087,
        0xf0f1f2f3_f4f5f6f7_f8f9fafb_fcfdfeff,
        0,
        0xf0f1f2f3_f4f5f6f7_f8f9fafb_fcfdfeff,
    ),
    (
        0xdc95c078_a2408989_ad48a214_92842087,
        0xf0f1f2f3_f4f5f6f7_f8f9fafb_fcfdfeff,
        1,
        0x33142463_5663b501_d7b1b0c6_d78f9d78,
    ),
    (
        0xdc95c078_a2408989_ad48a214_92842087,
        0xf0f1f2f3_f4f5f6f7_f8f9fafb_fcfdfeff,
        15,
        0xd626ebc6_8e3c6edd_ffa352cb_055f1f7e,
    ),
    (
        0xdc95c078_a2408989_ad48a214_92842087,
        0xf0f1f2f3_f4f5f6f7_f8f9fafb_fcfdfeff,
        16,
        0xb949932a_87f56dfc_d5f271d6_62f9eb7e,
    ),
    (
        0xdc95c078_a2408989_ad48a214_92842087,
        0xf0f1f2f3_f4f5f6f7_f8f9fafb_fcfdfeff,
        17,
        0x221dae3c_7e7bd227_d7d0d3fb_1d7bab80,
    ),
    (
        0xdc95c078_a2408989_ad48a214_92842087,
        0xf0f1f2f3_f4f5f6f7_f8f9fafb_fcfdfeff,
        63,
        0x26c9b218_349bd597_ce09afdb_ea3cf352,
    ),
    (
        0xdc95c078_a2408989_ad48a214_92842087,
        0xf0f1f2f3_f4f5f6f7_f8f9fafb_fcfdfeff,
        64,
        0xa08f868e_85863334_8ebe6701_26f4e51b,
    ),
    (
        0xdc95c078_a2408989_ad48a214_92842087,
        0xf0f1f2f3_f4f5f6f7_f8f9fafb_fcfdfeff,
        65,
        0x96987fe1_feb0a0ca_14d05ad9_a3039ecf,
    ),
    (
        0xdc95c078_a2408989_ad48a214_92842087,
        0xf0f1f2f3_f4f5f6f7_f8f9fafb_fcfdfeff,
        127,
        0xf59d2dc8_d2845310_a50bd471_b87379b5,
    ),
    (
        0xdc95c078_a2408989_ad48a214_92842087,
        0xf0f1f2f3_f4f5f6f7_f8f9fafb_fcfdfeff,
        128,
        0xf51d2e61_8dc097b1_f3d3ac96_17939927,
    ),
    (
        0xdc95c078_a2408989_ad48a214_92842087,
        0xf0f1f2f3_f4f5f6f7_f8f9fafb_fcfdfeff,
        255,
        0xb9403363_14337908_1e7b6d15_d00976ec,
    ),
    (
        0xdc95c078_a2408989_ad48a214_92842087,
        0xf0f1f2f3_f4f5f6f7_f8f9fafb_fcfdfeff,
        256,
        0x42bbeae0_ff1981aa_ace9ca24_3dd932ec,
    ),
    (
        0xdc95c078_a2408989_ad48a214_92842087,
        0xf0f1f2f3_f4f5f6f7_f8f9fafb_fcfdfeff,
        257,
        0x8700b3f5_2a1339b6_ee19aa8e_65cc7f61,
    ),
    (
        0xdc95c078_a2408989_ad48a214_92842087,
        0xf0f1f2f3_f4f5f6f7_f8f9fafb_fcfdfeff,
        65594,
        0xc0655f80_6282f445_af772d87_17546ad9,
    ),
];

/// The longest text of the rows.
const LONGEST: usize = 65_594;

/// Byte i is 7 i + 3 modulo 256.
fn text(alloc: Global) -> Result<Vec<u8>, AllocError> {
    let mut bytes = Vec::with_capacity(alloc, LONGEST)?;
    for i in 0..LONGEST {
        bytes.push(((7 * i + 3) % 256) as u8)?;
    }
    Ok(bytes)
}

#[test]
fn agrees_with_the_standard(rt: HostRuntime) -> Result<(), Fail> {
    let bytes = text(rt.alloc())?;
    let mut table = Table::empty();
    for (subkey, before, length, after) in ROWS {
        table.fill(&subkey.to_be_bytes());
        let piece = bytes.get(..length).ok_or("longer than the text")?;
        let want = after.to_be_bytes();

        let mut acc = before.to_be_bytes();
        table.absorb(&mut acc, piece);
        assert_eq!(rt; acc, want, "absorb at {length}");

        let mut acc = before.to_be_bytes();
        table.absorb_plain(&mut acc, piece);
        assert_eq!(rt; acc, want, "absorb_plain at {length}");

        let mut acc = before.to_be_bytes();
        table.absorb_table(&mut acc, piece);
        assert_eq!(rt; acc, want, "absorb_table at {length}");

        let mut acc = before.to_be_bytes();
        table.absorb_lanes(&mut acc, piece);
        assert_eq!(rt; acc, want, "absorb_lanes at {length}");
    }
    table.wipe();
    Ok(())
}

#[test]
fn hashes_ciphertext_and_lengths(rt: HostRuntime) {
    let mut table = Table::empty();
    table.fill(&0x66e94bd4_ef8a2c3b_884cfa59_ca342b2e_u128.to_be_bytes());
    let mut acc = [0u8; 16];
    table.absorb(
        &mut acc,
        &0x0388dace_60b6a392_f328c2b9_71b2fe78_u128.to_be_bytes(),
    );
    assert_eq!(rt;
        acc,
        0x5e2ec746_91706288_2c85b068_5353deb7_u128.to_be_bytes()
    );
    table.absorb(&mut acc, &128u128.to_be_bytes());
    assert_eq!(rt;
        acc,
        0xf38cbb1a_d69223dc_c3457ae5_b6b0f885_u128.to_be_bytes()
    );
}

//! Written by `checks/cmac_rows.py` with Python's `cryptography`.

/// K1 and K2 by the length of the key.
pub(super) const SUBKEYS: [[u128; 2]; 3] = [
    [
        0xfbeed618_35713366_7c85e08f_7236a8de,
        0xf7ddac30_6ae266cc_f90bc11e_e46d513b,
    ],
    [
        0x448a5b1c_93514b27_3ee6439d_d4daa296,
        0x8914b639_26a2964e_7dcc873b_a9b5452c,
    ],
    [
        0xcad1ed03_299eedac_2e9a9980_8621502f,
        0x95a3da06_533ddb58_5d353301_0c42a0d9,
    ],
];

/// CMACs by the length of the key, of 0, 16, 40 and 64 bytes of the standard's text.
pub(super) const MACS: [[u128; 4]; 3] = [
    [
        0xbb1d6929_e9593728_7fa37d12_9b756746,
        0x070a16b4_6b4d4144_f79bdd9d_d04a287c,
        0xdfa66747_de9ae630_30ca3261_1497c827,
        0x51f0bebf_7e3b9d92_fc497417_79363cfe,
    ],
    [
        0xd17ddf46_adaacde5_31cac483_de7a9367,
        0x9e99a7bf_31e71090_0662f65e_617c5184,
        0x8a1de5be_2eb31aad_089a82e6_ee908b0e,
        0xa1d5df0e_ed790f79_4d775896_59f39a11,
    ],
    [
        0x028962f6_1b7bf89e_fc6b551f_4667d983,
        0x28a7023f_452e8f82_bd4bf28d_8c37c35c,
        0xaaf3d8f1_de5640c2_32f5b169_b9c911e6,
        0xe1992190_549f6ed5_696a2c05_6c315410,
    ],
];

/// CMACs of 1, 15, 17, 31, 32, 33 and 4,096 bytes that count up from 0.
pub(super) const COUNTED: [u128; 7] = [
    0x2beceaa8_1bbd0f09_a26bc4ad_28b7dd18,
    0xca408858_080e7bd3_b33d01ba_cf371965,
    0x039b5275_a5bb111e_9d2daf0c_79442ea1,
    0xd4798230_bf113079_00db0f02_66145ab9,
    0xe9085e5b_1ceb861c_d00b0bf7_2ff5111b,
    0x5e869465_d92a47f1_7838b252_495e3834,
    0x88df27da_1e6feb34_66333728_3f521534,
];

/// Sixteen bytes of counter and of feedback mode, with the label `label` and the context `context`.
pub(super) const SIXTEEN: u128 = 0x08df8fc1_e233ac22_6f2455e1_2e9e4f5a;

/// The same of double-pipeline mode.
pub(super) const SIXTEEN_PIPELINE: u128 = 0x0c638257_8eb2b1c0_ba96bf0c_b778a1b8;

/// CMACs of 1, 15, 16, 17, 255 and 65,536 derived bytes, without label and context and with 255 bytes each.
pub(super) const COUNTER: [[u128; 6]; 2] = [
    [
        0xfe41d267_25ffd25a_775a4f14_0ae1cf5e,
        0x67bc1713_d1c57b4e_c11ab131_012958f9,
        0x60059f17_aad14a71_d0d6d245_d5815045,
        0x00041e33_5ecfde90_bffd9bc3_ca8bf807,
        0x271bf36d_ca85d5c6_e9f2d1b1_60776b12,
        0x52f3bc80_1fd58e5b_5737be5e_c0e0cce0,
    ],
    [
        0x5be0c49f_f40e14e4_9f177426_ea902dfc,
        0xbbfb9574_a8e45ca3_e8e192f7_71973602,
        0x32a65a5f_849b2dd6_635e2041_7384481e,
        0x7fd39750_28d40bfb_94cdfd25_2000e6c4,
        0x49e1bf75_16c94ed8_a2f3c447_b5d42168,
        0x43a94ef9_2045e09c_f3bf2533_d777c1bb,
    ],
];

/// CMACs of 1, 15, 16, 17, 255 and 65,536 derived bytes, without label and context and with 255 bytes each.
pub(super) const FEEDBACK: [[u128; 6]; 2] = [
    [
        0xfe41d267_25ffd25a_775a4f14_0ae1cf5e,
        0x67bc1713_d1c57b4e_c11ab131_012958f9,
        0x60059f17_aad14a71_d0d6d245_d5815045,
        0xdd3b6928_e9249948_24689e57_545f421c,
        0xecc72f44_12751727_bc02d422_e5906722,
        0x89d98603_1c143ed5_13272768_e7278171,
    ],
    [
        0x5be0c49f_f40e14e4_9f177426_ea902dfc,
        0xbbfb9574_a8e45ca3_e8e192f7_71973602,
        0x32a65a5f_849b2dd6_635e2041_7384481e,
        0xf2fbbbba_7f3081a3_60e5234c_8f26f72b,
        0x353b5f09_257a69db_90392024_2c70dad1,
        0x0b3beed5_a62f2cfc_1fccdf7d_bac35d6b,
    ],
];

/// CMACs of 1, 15, 16, 17, 255 and 65,536 derived bytes, without label and context and with 255 bytes each.
pub(super) const PIPELINE: [[u128; 6]; 2] = [
    [
        0x09791c84_6fac295a_452ba047_c6e639e8,
        0x5119b32c_8b17fd95_6ee91e7d_fd40e276,
        0x149707a1_2d598250_85f2acd4_8189d691,
        0xa6e4bf6c_51549828_bba74229_086686b3,
        0x7f42caf5_f9d3a33c_7c161839_87d7a558,
        0xc37bc85d_b091afce_0fbe39de_cf2d4dc7,
    ],
    [
        0xde9167ea_a83d21c8_49f66e89_79c1510e,
        0x7b61a4df_dbbdc4f8_0c1b8a75_5678e3b7,
        0xe39b8a0f_4bb7f339_36bee9d3_7f15f6ce,
        0xc0e6577e_94a3fe54_5eef8cb9_409d9ab1,
        0x16c5e62f_33fdeca1_823122e0_1568c578,
        0xdc403a44_c742d300_e62c419c_dd8e4ded,
    ],
];

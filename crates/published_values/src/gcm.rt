//! SP 800-38D.
ghost use Rattle.std.specs.Prelude.{◌≡◌, ◌++◌, [], ◌∷◌};
ghost use Rattle.aes_spec.specs.Gctr.{inc32};
ghost use Rattle.ghash_core.specs.Block.{block_of, blocks_of, bytes_of, by_x, product, ghash};
ghost use Rattle.gcm_mode.specs.Gcm.{gcm_encrypt};
ghost use Rattle.published_values.specs.Bytes.{bytes};

/// x times the block whose last bit is one is R (6.3). The first block of test case 2 of McGrew and Viega's GCM times its hash subkey,
/// and the GHASH of that block and the lengths (6.4).
pub fn hashed_blocks()
    ensures by_x { bytes_of (by_x (block_of (bytes 16 1))) ≡ bytes 16 0xe1000000000000000000000000000000 }
    ensures product { bytes_of (product (block_of (bytes 16 0x0388dace60b6a392f328c2b971b2fe78)) (block_of (bytes 16 0x66e94bd4ef8a2c3b884cfa59ca342b2e)))
        ≡ bytes 16 0x5e2ec746917062882c85b0685353deb7 }
    ensures ghash { bytes_of (ghash (block_of (bytes 16 0x66e94bd4ef8a2c3b884cfa59ca342b2e))
        (blocks_of (bytes 16 0x0388dace60b6a392f328c2b971b2fe78 ++ bytes 16 128)))
        ≡ bytes 16 0xf38cbb1ad69223dcc3457ae5b6b0f885 }
{}

/// inc32 leaves the first 96 bits and begins again after ff ff ff ff (6.2). Test case 4 of McGrew and Viega's GCM: 60 bytes under a key of 128
/// bits, an IV of 96 and 20 bytes of additional data (7.1).
pub fn sealed_texts()
    ensures inc32 { inc32 (bytes 16 0xffffffffffffffffffffffffffffffff) ≡ bytes 16 0xffffffffffffffffffffffff00000000 }
    ensures case_4 { gcm_encrypt (bytes 16 0xfeffe9928665731c6d6a8f9467308308) (bytes 12 0xcafebabefacedbaddecaf888)
        (bytes 20 0xfeedfacedeadbeeffeedfacedeadbeefabaddad2)
        (bytes 30 0xd9313225f88406e5a55909c5aff5269a86a7a9531534f7da2e4c303d8a31
        ++ bytes 30 0x8a721c3c0c95956809532fcf0e2449a6b525b16aedf5aa0de657ba637b39)
        ≡ (record {
          ciphertext = bytes 30 0x42831ec2217774244b7221b784d0d49ce3aa212f2c02a4e035c17e2329ac
              ++ bytes 30 0xa12e21d514b25466931c7d8f6a5aac84aa051ba30b396a0aac973d58e091;
          tag = bytes 16 0x5bc94fbc3221a5db94fae95ae7121a47;
        }) }
{}

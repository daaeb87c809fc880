//! FIPS 197.
ghost use Rattle.std.specs.Prelude.{◌≡◌, List, [], ◌∷◌, drop, map};
ghost use Rattle.std.specs.List.{range_with_len};
ghost use Rattle.aes_spec.specs.Field.{times, sub_byte, inv_sub_byte};
ghost use Rattle.aes_spec.specs.Key.{schedule_words, aes, aes_inverse};
ghost use Rattle.published_values.specs.Bytes.{bytes};
ghost use Rattle.published_values.specs.Tables.{sbox, inverse_sbox};

/// Two products of bytes that the standard works out (section 4.2).
pub fn field_products()
    ensures by_83 { times 0x57 0x83 ≡ 0xc1 }
    ensures by_13 { times 0x57 0x13 ≡ 0xfe }
{}

/// The substitution of 53 is ed (section 5.1.1); that of every byte (table 4), and its inverse (table 6).
pub fn substitution_tables()
    ensures of_53 { sub_byte 0x53 ≡ 0xed }
    ensures forward { map sub_byte (range_with_len 0 256) ≡ sbox }
    ensures backward { map inv_sub_byte (range_with_len 0 256) ≡ inverse_sbox }
{}

/// The last four words of the schedules of the examples (appendix A.1 to A.3), to which all others lead.
pub fn key_expansions()
    ensures of_128 { drop 40 (schedule_words (bytes 16 0x2b7e151628aed2a6abf7158809cf4f3c))
        ≡ bytes 4 0xd014f9a8 ∷ bytes 4 0xc9ee2589 ∷ bytes 4 0xe13f0cc8 ∷ bytes 4 0xb6630ca6 ∷ [] }
    ensures of_192 { drop 48 (schedule_words (bytes 24 0x8e73b0f7da0e6452c810f32b809079e562f8ead2522c6b7b))
        ≡ bytes 4 0xe98ba06f ∷ bytes 4 0x448c773c ∷ bytes 4 0x8ecc7204 ∷ bytes 4 0x01002202 ∷ [] }
    ensures of_256 { drop 56 (schedule_words (bytes 32 0x603deb1015ca71be2b73aef0857d77811f352c073b6108d72d9810a30914dff4))
        ≡ bytes 4 0xfe4890d1 ∷ bytes 4 0xe6188d0b ∷ bytes 4 0x046df344 ∷ bytes 4 0x706c631e ∷ [] }
{}

/// A block under a key of each length (appendix B, and appendix C.1 to C.3 of the edition of 2001), and back under one of 128 bits.
pub fn ciphers()
    ensures example { aes (bytes 16 0x2b7e151628aed2a6abf7158809cf4f3c) (bytes 16 0x3243f6a8885a308d313198a2e0370734)
        ≡ bytes 16 0x3925841d02dc09fbdc118597196a0b32 }
    ensures under_128 { aes (bytes 16 0x000102030405060708090a0b0c0d0e0f) (bytes 16 0x00112233445566778899aabbccddeeff)
        ≡ bytes 16 0x69c4e0d86a7b0430d8cdb78070b4c55a }
    ensures under_192 { aes (bytes 24 0x000102030405060708090a0b0c0d0e0f1011121314151617) (bytes 16 0x00112233445566778899aabbccddeeff)
        ≡ bytes 16 0xdda97ca4864cdfe06eaf70a0ec0d7191 }
    ensures under_256 { aes (bytes 32 0x000102030405060708090a0b0c0d0e0f101112131415161718191a1b1c1d1e1f) (bytes 16 0x00112233445566778899aabbccddeeff)
        ≡ bytes 16 0x8ea2b7ca516745bfeafc49904b496089 }
    ensures back_under_128 { aes_inverse (bytes 16 0x000102030405060708090a0b0c0d0e0f) (bytes 16 0x69c4e0d86a7b0430d8cdb78070b4c55a)
        ≡ bytes 16 0x00112233445566778899aabbccddeeff }
{}

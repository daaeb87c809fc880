//! FIPS 180-4 and FIPS 198-1.
ghost use Rattle.std.specs.Prelude.{◌≡◌, ◌++◌, replicate};
ghost use Rattle.bits_core.specs.declared.algorithm.Alg.TheVariants.{Sha256, Sha384, Sha512};
ghost use Rattle.hmac_core.specs.Hash.{hash};
ghost use Rattle.hmac_core.specs.Hmac.{inner_key, outer_key, hmac};
ghost use Rattle.published_values.specs.Bytes.{bytes};

/// The digests of "abc" (the NIST's examples for FIPS 180-4).
pub fn digests()
    ensures by_256 { hash Sha256 (bytes 3 0x616263)
        ≡ bytes 32 0xba7816bf8f01cfea414140de5dae2223b00361a396177a9cb410ff61f20015ad }
    ensures by_384 { hash Sha384 (bytes 3 0x616263)
        ≡ bytes 48 0xcb00753f45a35e8bb5a03d699ac65007272c32ab0eded1631a8b605a43ff5bed8086072ba1e7cc2358baeca134c825a7 }
    ensures by_512 { hash Sha512 (bytes 3 0x616263)
        ≡ bytes 32 0xddaf35a193617abacc417349ae20413112e6fa4e89a97ea20a9eeee64b55d39a
        ++ bytes 32 0x2192992a274fc1a836ba3c23a3feebbd454d4423643ce80e2a9ac94fa54ca49f }
{}

/// The key "Jefe" with ipad and opad (FIPS 198-1, table 1), the MACs of "what do ya want for nothing?" under it (RFC 4231, 4.3), and one
/// under a key longer than a block (RFC 4231, 4.7).
pub fn macs()
    ensures ipad { inner_key Sha256 (bytes 4 0x4a656665) ≡ bytes 4 0x7c535053 ++ replicate 60 0x36 }
    ensures opad { outer_key Sha512 (bytes 4 0x4a656665) ≡ bytes 4 0x16393a39 ++ replicate 124 0x5c }
    ensures by_256 { hmac Sha256 (bytes 4 0x4a656665) (bytes 28 0x7768617420646f2079612077616e7420666f72206e6f7468696e673f)
        ≡ bytes 32 0x5bdcc146bf60754e6a042426089575c75a003f089d2739839dec58b964ec3843 }
    ensures by_384 { hmac Sha384 (bytes 4 0x4a656665) (bytes 28 0x7768617420646f2079612077616e7420666f72206e6f7468696e673f)
        ≡ bytes 48 0xaf45d2e376484031617f78d2b58a6b1b9c7ef464f5a01b47e42ec3736322445e8e2240ca5e69e2c78b3239ecfab21649 }
    ensures by_512 { hmac Sha512 (bytes 4 0x4a656665) (bytes 28 0x7768617420646f2079612077616e7420666f72206e6f7468696e673f)
        ≡ bytes 32 0x164b7a7bfcf819e2e395fbe73b56e0a387bd64222e831fd610270cd7ea250554
        ++ bytes 32 0x9758bf75c05a994a6d034f65f8f0e6fdcaeab1a34d4a6b4b636e070a38bce737 }
    ensures long_key { hmac Sha256 (replicate 131 0xaa) (bytes 27 0x54657374205573696e67204c6172676572205468616e20426c6f63
        ++ bytes 27 0x6b2d53697a65204b6579202d2048617368204b6579204669727374)
        ≡ bytes 32 0x60e431591ee0b67f0d8a26aacbf5b77f8e0bc6213728c5140546040f0ee37f54 }
{}

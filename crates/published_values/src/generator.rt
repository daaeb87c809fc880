//! SP 800-90A Rev. 1.
ghost use Rattle.std.specs.Prelude.{◌≡◌, ◌++◌, [], replicate};
ghost use Rattle.drbg_core.specs.Generator.{update, instantiate, generate};
ghost use Rattle.published_values.specs.Bytes.{bytes};

/// The generator begins with a K of bytes 00, a V of bytes 01 and the counter 1 (10.1.2.3). The first case of the NIST's CAVS 14.3 for
/// HMAC_DRBG over SHA-256, without reseeding: the 128 bytes of the second request.
pub fn generated_bytes()
    ensures begins { instantiate [] [] [] ≡ update (record { k = replicate 32 0; v = replicate 32 1; counter = 1 }) [] }
    ensures second { (generate ((generate (instantiate (bytes 32 0xca851911349384bffe89de1cbdc46e6831e44d34a4fb935ee285dd14b71a7488) (bytes 16 0x659ba96c601dc69fc902940805ec0ca8) []) [] 128).after) [] 128).bytes
        ≡ bytes 32 0xe528e9abf2dece54d47c7e75e5fe302149f817ea9fb4bee6f4199697d04d5b89
        ++ bytes 32 0xd54fbb978a15b5c443c9ec21036d2460b6f73ebad0dc2aba6e624abf07745bc1
        ++ bytes 32 0x07694bb7547bb0995f70de25d6b29e2d3011bb19d27676c07162c8b5ccde0668
        ++ bytes 32 0x961df86803482cb37ed6d5c0bb8d50cf1f50d476aa0458bdaba806f48be9dcb8 }
{}

//! SP 800-108 Rev. 1.
ghost use Rattle.std.specs.Prelude.{◌≡◌, ◌++◌, take};
ghost use Rattle.hmac_core.specs.Blocks.{joined};
ghost use Rattle.kbkdf_core.specs.CounterMode.{fixed_input, key_block};
ghost use Rattle.published_values.specs.Bytes.{bytes};

/// The fixed input is label, 00, context and the length in bits (section 4.1); and the output of the first case of the NIST's CAVS for
/// counter mode with HMAC-SHA-256 and a counter of 32 bits before the fixed input, which that case gives as one string.
pub fn derived_key()
    ensures input { fixed_input (bytes 5 0x6c6162656c) (bytes 7 0x636f6e74657874) 256 ≡ bytes 17 0x6c6162656c00636f6e7465787400000100 }
    ensures output { take 16 (joined (key_block (bytes 32 0xdd1d91b7d90b2bd3138533ce92b272fbf8a369316aefe242e659cc0ae238afe0)
        (bytes 30 0x01322b96b30acd197979444e468e1c5c6859bf1b1cf951b7e725303e237e
        ++ bytes 30 0x46b864a145fab25e517b08f8683d0315bb2911d80a0e8aba17f3b413faac)) 1)
        ≡ bytes 16 0x10621342bfb0fd40046c0e29f2cfdbf0 }
{}

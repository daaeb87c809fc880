//! SP 800-38F.
ghost use Rattle.std.specs.Prelude.{◌≡◌, Some};
ghost use Rattle.aes_spec.specs.Key.{aes};
ghost use Rattle.key_wrap.specs.Wrapping.{kw, kwp, padded};
ghost use Rattle.key_wrap.specs.Unwrapping.{unkwp};
ghost use Rattle.published_values.specs.Bytes.{bytes};

/// KW of 128 bits under a key of 128 (RFC 3394, 4.1), and KWP of 7 bytes under a key of 192 bits (RFC 5649, section 6), whose block
/// begins with the check value and the length; and what KWP wrapped, unwrapped again.
pub fn wrapped_keys()
    ensures kw { kw (aes (bytes 16 0x000102030405060708090a0b0c0d0e0f)) (bytes 16 0x00112233445566778899aabbccddeeff)
        ≡ bytes 24 0x1fa68b0a8112b447aef34bd8fb5a7b829d3e862371d2cfe5 }
    ensures padded { padded (bytes 7 0x466f7250617369) ≡ bytes 16 0xa65959a600000007466f725061736900 }
    ensures kwp { kwp (aes (bytes 24 0x5840df6e29b02af1ab493b705bf16ea1ae8338f4dcc176a8)) (bytes 7 0x466f7250617369)
        ≡ bytes 16 0xafbeb0f07dfbf5419200f2ccb50bb24f }
    ensures kwp_back { unkwp (bytes 24 0x5840df6e29b02af1ab493b705bf16ea1ae8338f4dcc176a8) (bytes 16 0xafbeb0f07dfbf5419200f2ccb50bb24f)
        ≡ Some (bytes 7 0x466f7250617369) }
{}

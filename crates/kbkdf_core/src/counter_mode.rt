//! The derivation and its blocks.
ghost use Rattle.std.specs.Prelude.{◌≡◌, ℕ, ◌+◌, ◌*◌, ◌/◌, ◌≤◌, ◌++◌, List, [], length};
ghost use Rattle.bits_core.specs.declared.algorithm.Alg.TheVariants.{Sha256};
ghost use Rattle.hmac_core.specs.Hmac.{HoldsText};
ghost use Rattle.kbkdf_core.specs.CounterMode.{fixed_input, kbkdf_counter, key_block};

use bits_core::{Alg, wipe};
use hmac_core::MacStream;

/// Fills `out`, of 1 to 65,536 bytes, with key material (SP 800-108 Rev. 1, 4.1). The key, the label
/// and the context have any length.
pub fn derive(key: &[u8], label: &[u8], context: &[u8], out: &mut [u8])
    requires some { 1 ≤ length out.old }
    requires most { length out.old ≤ 65536 }
    ensures { out.new ≡ kbkdf_counter key.now label.now context.now (length out.old) }
{
    let bits = (8 * out.len()) as u32;
    let keyed = MacStream::new(Alg::Sha256, key);
    let mut block = [0u8; 32];
    for i in 0..out.len() {
        if i % 32 == 0 {
            let counter = (i / 32 + 1) as u32;
            block = block_of(&keyed, counter, label, context, bits);
        }
        out[i] = block[i % 32];
    }
    wipe(&mut block);
}

// The block of this counter, under the key of a stream that has taken no text.
fn block_of(keyed: &MacStream, counter: u32, label: &[u8], context: &[u8], bits: u32) -> [u8; 32]
    ensures { (key : List ℕ) → HoldsText keyed.now Sha256 key []
        → result ≡ key_block key (fixed_input label.now context.now bits) counter }
{
    let mut stream = keyed.clone().unwrap();
    stream.update(&counter.to_be_bytes());
    stream.update(label);
    stream.update(&[0]);
    stream.update(context);
    stream.update(&bits.to_be_bytes());
    stream.finish_leftmost()
}

//! Key derivation in three modes.
ghost use Rattle.std.specs.Prelude.{◌≡◌, ◌<◌, ◌≤◌, ◌+◌, ◌++◌, ◌-◌, ◌*◌, ℕ, List, [], length, take};
ghost use Rattle.std.specs.Int.{w32, to_be_bytes};
ghost use Rattle.aes_core.specs.Schedules.{IsExpanded};
ghost use Rattle.kbkdf_core.specs.CounterMode.{fixed_input};
ghost use Rattle.cmac_core.specs.Cmac.{cmac};
ghost use Rattle.cmac_core.specs.Streams.{HoldsText};
ghost use Rattle.cmac_core.specs.Derivation.{cmac_kdf, key_block, pipeline_input};
ghost use Rattle.cmac_core.specs.Steps.{IsAfterBlocks, before_counter};

use crate::stream::{BLOCK, CmacStream};
use aes_core::Schedule;
use bits_core::wipe;

/// A mode of key derivation (SP 800-108 Rev. 1, sections 4.1 to 4.3). Of what the standard leaves open this
/// project has chosen: the fixed input is the label, a zero byte, the context and the output's length in
/// bits, as 32 bits; the counter has 32 bits too; K(0) is empty.
#[derive(Clone, Copy)]
pub enum Mode {
    /// K(i) is the CMAC of the counter and the fixed input.
    Counter,
    /// K(i-1) stands before the counter.
    Feedback,
    /// A(i) stands before the counter: A(0) is the fixed input, A(i) the CMAC of A(i-1).
    Pipeline,
}

/// The fixed input of a derivation, by its parts.
#[derive(Drop)]
struct FixedInput<'a> {
    label: &'a [u8],
    context: &'a [u8],
    bits: u32,
}

impl FixedInput<'_> {
    // Lets the stream take the fixed input.
    fn feed(&self, stream: &mut CmacStream, schedule: &Schedule)
        requires { 0 < schedule.now.rounds }
        ensures { (key text : List ℕ) → IsExpanded schedule.now key → HoldsText stream.old key text
            → HoldsText stream.new key (text ++ fixed_input self.now.label.now self.now.context.now self.now.bits) }
    {
        stream.update(schedule, self.label);
        stream.update(schedule, &[0]);
        stream.update(schedule, self.context);
        stream.update(schedule, &self.bits.to_be_bytes());
    }
}

/// Fills `out` with key material under the key that was expanded (SP 800-108 Rev. 1, section 4). The label
/// and the context have any length. `out` has 1 to 65,536 bytes, a limit of this project's own.
pub fn kdf(schedule: &Schedule, mode: Mode, label: &[u8], context: &[u8], out: &mut [u8])
    requires expanded { 0 < schedule.now.rounds }
    requires some { 1 ≤ length out.old }
    requires most { length out.old ≤ 65536 }
    ensures { (key : List ℕ) → IsExpanded schedule.now key
        → out.new ≡ cmac_kdf mode key label.now context.now (length out.old) }
{
    let bits = (8 * out.len()) as u32;
    let input = FixedInput {
        label,
        context,
        bits,
    };
    let mut prefix = [0; 16];
    let mut block = [0; 16];
    for done in 0..out.len().div_ceil(BLOCK) {
        let counter = (done + 1) as u32;
        next_block(schedule, mode, counter, &input, &mut prefix, &mut block);
        put_block(out, BLOCK * done, &block);
    }
    wipe(&mut prefix);
    wipe(&mut block);
}

// Writes the front of a block from `at` on, as much of it as there is room for.
fn put_block(out: &mut [u8], at: usize, block: &[u8; 16])
    requires { at ≤ length out.old }
    ensures { take (at + 16) out.new ≡ take at out.old ++ take (length out.old - at) block.now }
{
    let size = BLOCK.min(out.len() - at);
    out[at..at + size].copy_from_slice(&block[..size]);
}

// Makes K(i) of K(i-1), where i is the counter, and in double-pipeline mode A(i) of A(i-1).
fn next_block(
    schedule: &Schedule,
    mode: Mode,
    counter: u32,
    input: &FixedInput<'_>,
    prefix: &mut [u8; 16],
    block: &mut [u8; 16],
)
    requires expanded { 0 < schedule.now.rounds }
    requires counted { 1 ≤ counter }
    ensures { (key : List ℕ) → IsExpanded schedule.now key
        → let fixed = fixed_input input.now.label.now input.now.context.now input.now.bits in
        IsAfterBlocks mode key fixed (counter - 1) block.old prefix.old
        → (block.new ≡ key_block mode key fixed counter)
        × IsAfterBlocks mode key fixed counter block.new prefix.new }
{
    let held = set_prefix(schedule, mode, counter, input, block, prefix);
    block_after(schedule, &prefix[..held], counter, input, block);
}

// Puts what stands before the counter into `prefix`, and answers how many bytes that is.
fn set_prefix(
    schedule: &Schedule,
    mode: Mode,
    counter: u32,
    input: &FixedInput<'_>,
    block: &[u8; 16],
    prefix: &mut [u8; 16],
) -> usize
    requires expanded { 0 < schedule.now.rounds }
    requires counted { 1 ≤ counter }
    ensures size { result ≤ 16 }
    ensures before { (key : List ℕ) → IsExpanded schedule.now key
        → let fixed = fixed_input input.now.label.now input.now.context.now input.now.bits in
        IsAfterBlocks mode key fixed (counter - 1) block.now prefix.old
        → (take result prefix.new ≡ before_counter mode key fixed counter)
        × IsAfterBlocks mode key fixed counter (key_block mode key fixed counter) prefix.new }
{
    match mode {
        Mode::Counter => 0,
        Mode::Feedback => {
            *prefix = *block;
            if counter == 1 { 0 } else { BLOCK }
        }
        Mode::Pipeline => {
            next_pipeline_input(schedule, counter, input, prefix);
            BLOCK
        }
    }
}

// Makes A(i) of A(i-1), where i is the counter.
fn next_pipeline_input(
    schedule: &Schedule,
    counter: u32,
    input: &FixedInput<'_>,
    prefix: &mut [u8; 16],
)
    requires expanded { 0 < schedule.now.rounds }
    requires counted { 1 ≤ counter }
    ensures { (key : List ℕ) → IsExpanded schedule.now key
        → let fixed = fixed_input input.now.label.now input.now.context.now input.now.bits in
        (1 < counter → prefix.old ≡ pipeline_input key fixed (counter - 1))
        → prefix.new ≡ pipeline_input key fixed counter }
{
    let mut stream = CmacStream::new(schedule);
    if counter == 1 {
        input.feed(&mut stream, schedule);
    } else {
        stream.update(schedule, prefix);
    }
    stream.finish(schedule, prefix);
}

// Writes the CMAC of some bytes, the counter and the fixed input.
fn block_after(
    schedule: &Schedule,
    before: &[u8],
    counter: u32,
    input: &FixedInput<'_>,
    out: &mut [u8; 16],
)
    requires { 0 < schedule.now.rounds }
    ensures { (key : List ℕ) → IsExpanded schedule.now key
        → let fixed = fixed_input input.now.label.now input.now.context.now input.now.bits in
        out.new ≡ cmac key (before.now ++ to_be_bytes w32 counter ++ fixed) }
{
    let mut stream = CmacStream::new(schedule);
    stream.update(schedule, before);
    stream.update(schedule, &counter.to_be_bytes());
    input.feed(&mut stream, schedule);
    stream.finish(schedule, out);
}

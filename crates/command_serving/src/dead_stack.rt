// What calls that returned left of keys on the stack, below the frame of their caller.
ghost use Rattle.std.specs.Prelude.{◌≡◌};

use bits_core::wipe;

// More than the frames below `serve_chunk` take: docs/DECISIONS.md says how that was measured.
pub const DEAD_STACK: usize = 24_576;

/// Makes the stack below the caller's frame zero, and answers a zero from there.
///
/// It isn't inlined, so that its bytes lie where those of the caller's last call lay. Which one is read back only the caller knows, and
/// what it does with it shows: else the compiler would drop bytes that die with this call, and the stores to them.
#[inline(never)]
pub(crate) fn wipe_dead_stack(place: usize) -> u8
    ensures { result ≡ 0 }
{
    let mut dead = [0; DEAD_STACK];
    wipe(&mut dead);
    dead[place % DEAD_STACK]
}

//! What a call leaves on the stack: nothing that depends on a secret.
//!
//! The functions that handle secrets keep copies of them in their frames: rooms, schedules, saved registers. The compiler drops a wipe of a
//! room that is not read again, so the frames themselves are overwritten once a call, and what was written is read back into the answer.
//!
//! Each call overwrites what its own work reaches, and a margin, so that it needs little more stack than its work does. The depths are measured, not
//! proved: tests/stack-residue looks at what is left, and tries each call on a small stack.
ghost use Rattle.std.specs.Prelude.{◌≡◌, ◌<◌, Result, length, replicate};

use scheme::Refusal;

/// The bits of zeros that were written: none. It is a call of its own, so that the zeros are written first.
#[inline(never)]
#[tactic(auto, using(crate::proofs::Zero::or_zero))]
fn read_back(zeros: &[u8]) -> u8
    requires zero { zeros.now ≡ replicate (length zeros.now) 0 }
    ensures clean { result ≡ 0 }
{
    let mut left = 0;
    for byte in zeros {
        left |= *byte;
    }
    left
}

/// Overwrites what calls that have returned left on the stack, `DEPTH` bytes deep.
#[inline(never)]
fn burn<const DEPTH: usize>() -> u8
    requires depth { DEPTH < 65536 }
    ensures clean { result ≡ 0 }
{
    let room = [0u8; DEPTH];
    read_back(&room)
}

/// The answer of a call that has returned, once the frames that it used are overwritten, `DEPTH` bytes deep. That call must be `#[inline(never)]`.
pub(crate) fn cleared<T: Copy, const DEPTH: usize>(answer: Result<T, Refusal>) -> Result<T, Refusal>
    requires depth { DEPTH < 65536 }
    ensures same { result ≡ answer }
{
    if burn::<DEPTH>() == 0 {
        answer
    } else {
        Err(Refusal::NotOpened)
    }
}

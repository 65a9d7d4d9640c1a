//! Setup: a key pair from random bytes.
ghost use Rattle.std.specs.Prelude.{◌≡◌, ◌<◌, length};
ghost use Rattle.scheme.specs.Setup.{setup};
ghost use Rattle.scheme.specs.Calls.{setup_lengths, after_setup, setup_ends};
ghost use Rattle.gf.specs.Field.{width};
ghost use Rattle.scheme.specs.Field.{field_of};
ghost use Rattle.calls.specs.Ends.{setup_end};

use crate::stack::cleared;
use scheme::Refusal;
use sets::{ParameterSet, Set};

/// What a setup may leave on the stack: frames of 760 bytes, and 3700 where the C library is bound at its first call, which saves registers.
const SETUP_DEPTH: usize = 4096;

/// Whether the lengths are those of the set.
fn right_lengths(s: Set, random: usize, public: usize, private: usize, work: usize) -> bool
    ensures { result ≡ setup_lengths s random public private work }
{
    random == s.random && public == s.public && private == s.private && work == s.work
}

/// Makes a key pair past the first checks. The work area is zero afterwards, and on a refusal both keys are.
#[inline(never)]
fn make_pair(
    parameters: ParameterSet,
    random: &[u8],
    public: &mut [u8],
    private: &mut [u8],
    work: &mut [u16],
) -> Result<usize, Refusal>
    requires field { parameters.set.m ≡ width (field_of parameters.set) }
    requires byte { parameters.set.byte < 256 }
    requires random { length random.now ≡ parameters.set.random }
    requires public { length public.old ≡ parameters.set.public }
    requires private { length private.old ≡ parameters.set.private }
    requires work { length work.old ≡ parameters.set.work }
    ensures { setup_end result public.new private.new work.new ≡ after_setup (setup parameters.set random.now) public.old private.old work.old }
{
    let made = making::make(parameters, random, public, private, work);
    work.fill(0);
    if made.is_err() {
        public.fill(0);
        private.fill(0);
    }
    made
}

/// Writes a key pair of the set that the byte names, from random bytes, and answers the number of windows tried.
///
/// The random bytes, both keys and the work area have the set's lengths, or nothing is written. Otherwise the work area is zero afterwards,
/// and on a refusal both keys are.
pub fn setup(
    byte: u8,
    random: &[u8],
    public: &mut [u8],
    private: &mut [u8],
    work: &mut [u16],
) -> Result<usize, Refusal>
    ensures { setup_end result public.new private.new work.new ≡ setup_ends byte random.now public.old private.old work.old }
{
    let Some(parameters) = sets::find(byte) else {
        return Err(Refusal::UnknownSet);
    };
    let s = parameters.set;
    if !right_lengths(s, random.len(), public.len(), private.len(), work.len()) {
        return Err(Refusal::WrongLength);
    }
    cleared::<usize, SETUP_DEPTH>(make_pair(parameters, random, public, private, work))
}

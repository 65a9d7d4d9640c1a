//! First checks: the set that a key's first byte names, and the length of a secret.
ghost use Rattle.std.specs.Prelude.{◌≡◌, ◌&&◌, leb, IfOk, IfErr};
ghost use Rattle.calls.specs.Given.{OpenServes, NamesSet, NamesNone};

use scheme::Refusal;
use sets::{ParameterSet, Set};

/// The set that the key's first byte names.
#[tactic(auto, using(crate::proofs::Rows::named_serves))]
pub fn read_set(key: &[u8]) -> Result<ParameterSet, Refusal>
    ensures named { IfOk result (λ p. NamesSet key.now p.set) }
    ensures serves { IfOk result (λ p. OpenServes p.set) }
    ensures none { IfErr result (NamesNone key.now) }
{
    let Some(byte) = key.first() else {
        return Err(Refusal::WrongLength);
    };
    sets::find(*byte).ok_or(Refusal::UnknownSet)
}

/// Whether a secret of this length has a byte and fits into a message.
pub fn secret_fits(s: Set, len: usize) -> bool
    ensures { result ≡ (leb 1 len && leb len s.k1) }
{
    1 <= len && len <= s.k1
}

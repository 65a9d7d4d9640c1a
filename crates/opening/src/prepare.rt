//! Preparing a key: it is judged and read, its places are listed, and W is inverted.
ghost use Rattle.std.specs.Prelude.{◌≡◌, ℕ, ◌+◌, ◌-◌, ◌*◌, ◌/◌, ◌<◌, ◌≤◌, length, OnOk, IfOk, IfErr};
ghost use Rattle.bits.specs.Numbers.{numbers16};
ghost use Rattle.perm.specs.Perm.{Perm};
ghost use Rattle.scheme.specs.Lists.{inverse_of};
ghost use Rattle.scheme.specs.Keys.{WellFormed};
ghost use Rattle.scheme.specs.Opening.{places_i, places_t};
ghost use Rattle.opening.specs.Area.{key_room};
ghost use Rattle.opening.specs.Given.{Checked};
ghost use Rattle.opening.specs.Held.{held};
ghost use Rattle.opening.specs.Bounds.{Bounds};
ghost use Rattle.opening.specs.Ending.{KeyFails};
ghost use Rattle.opening.specs.Inverse.{HoldsInverse};

use crate::Failure;
use crate::key::PrivateKey;
use crate::matrix::invert_w;
use crate::places::{list_mixed, list_plain};
use sets::Set;

/// A well-formed key whose W is regular, and what is computed from it alone, in lent memory.
#[derive(Clone, Copy)]
pub struct PreparedKey<'a, 'w> {
    pub key: PrivateKey<'a>,
    /// GE by rows
    pub ge: &'w [u16],
    /// P1 and P2
    pub first: &'w [u16],
    pub second: &'w [u16],
    /// the places I and T, as many of each
    pub mixed: &'w [u16],
    pub plain: &'w [u16],
    /// in rows: W, and beside it its inverse
    pub matrix: &'w [u16],
    pub ghost formed: { Checked key.parameters.set key.bytes.now },
    pub ghost ge_is: { ge.now ≡ (held key).ge },
    pub ghost first_is: { first.now ≡ inverse_of (held key).q1 },
    pub ghost second_is: { second.now ≡ inverse_of (held key).q2 },
    pub ghost mixed_is: { mixed.now ≡ places_i key.parameters.set (held key) },
    pub ghost plain_is: { plain.now ≡ places_t key.parameters.set (held key) },
    pub ghost bounds: { Bounds key.parameters.set (held key) ge.now first.now second.now mixed.now plain.now },
    pub ghost inverse: { HoldsInverse key.parameters.set (held key) (length mixed.now) matrix.now },
}

/// The inverse of the list of numbers in the bytes.
pub(crate) fn invert_list(bytes: &[u8], inverse: &mut [u16]) -> Result<(), Failure>
    requires inverse { length inverse.old ≡ length bytes.now / 2 }
    ensures permutation { OnOk result (Perm (numbers16 bytes.now)) }
    ensures inverse { OnOk result (inverse.new ≡ inverse_of (numbers16 bytes.now)) }
    ensures refused { IfErr result (λ e. (e ≡ Failure.Malformed) × (Perm (numbers16 bytes.now) → ⊥)) }
{
    if perm::invert_numbers(bytes, inverse) {
        Ok(())
    } else {
        Err(Failure::Malformed)
    }
}

/// P1 and P2, if the key's lists are permutations.
pub(crate) fn invert_lists(
    key: &PrivateKey,
    first: &mut [u16],
    second: &mut [u16],
) -> Result<(), Failure>
    requires first { length first.old ≡ key.now.parameters.set.n }
    requires second { length second.old ≡ key.now.parameters.set.n + key.now.parameters.set.w }
    ensures permutations { OnOk result (Perm (held key.now).q1 × Perm (held key.now).q2) }
    ensures first { OnOk result (first.new ≡ inverse_of (held key.now).q1) }
    ensures second { OnOk result (second.new ≡ inverse_of (held key.now).q2) }
    ensures refused { IfErr result (KeyFails key.now.parameters.set key.now.bytes.now) }
{
    invert_list(key.second_list(), second)?;
    invert_list(key.first_list(), first)
}

/// The same, if the key is well formed.
pub(crate) fn judge(key: &PrivateKey, first: &mut [u16], second: &mut [u16]) -> Result<(), Failure>
    requires first { length first.old ≡ key.now.parameters.set.n }
    requires second { length second.old ≡ key.now.parameters.set.n + key.now.parameters.set.w }
    ensures formed { OnOk result (WellFormed key.now.parameters.set key.now.bytes.now) }
    ensures first { OnOk result (first.new ≡ inverse_of (held key.now).q1) }
    ensures second { OnOk result (second.new ≡ inverse_of (held key.now).q2) }
    ensures refused { IfErr result (KeyFails key.now.parameters.set key.now.bytes.now) }
{
    invert_lists(key, first, second)?;
    if !key.none_zero() {
        return Err(Failure::Malformed);
    }
    if !key.spare_zero() {
        return Err(Failure::Malformed);
    }
    Ok(())
}

/// Prepares the key in the work area, if it is well formed and W regular.
#[tactic(auto, using(crate::proofs::Permuting::checked_of, crate::proofs::Matrices::square, crate::proofs::Preparing::as_many_of, crate::proofs::Keyed::bounds_of))]
pub(crate) fn prepare<'a, 'w>(
    key: &PrivateKey<'a>,
    work: &'w mut [u16],
) -> Result<PreparedKey<'a, 'w>, Failure>
    requires room { key_room key.now.parameters.set ≤ length work.old }
    ensures set { IfOk result (λ prepared. prepared.key.parameters.set ≡ key.now.parameters.set) }
    ensures bytes { IfOk result (λ prepared. prepared.key.bytes.now ≡ key.now.bytes.now) }
    ensures refused { IfErr result (KeyFails key.now.parameters.set key.now.bytes.now) }
{
    let Set { n, k, w, .. } = key.parameters.set;
    let (ge, rest) = work.split_at_mut(k * (n + w - k));
    let (second, rest) = rest.split_at_mut(n + w);
    let (first, rest) = rest.split_at_mut(n);
    judge(key, first, second)?;
    key.unpack_ge(ge);
    let (mixed, rest) = rest.split_at_mut(k);
    let u = list_mixed(key, second, mixed);
    let mixed = &mixed[..u];
    let (plain, rest) = rest.split_at_mut(u);
    list_plain(key, second, plain);
    let matrix = &mut rest[..u * (u + u)];
    invert_w(key, ge, mixed, plain, matrix)?;
    Ok(PreparedKey {
        key: *key,
        ge,
        first,
        second,
        mixed,
        plain,
        matrix,
    })
}

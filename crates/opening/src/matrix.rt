//! The matrix W.
ghost use Rattle.std.specs.Prelude.{◌≡◌, ℕ, ◌+◌, ◌-◌, ◌*◌, ◌<◌, ◌≤◌, length, get_or, OnOk, IfErr};
ghost use Rattle.scheme.specs.Keys.{WellFormed};
ghost use Rattle.scheme.specs.Opening.{places_i, places_t};
ghost use Rattle.opening.specs.Held.{held};
ghost use Rattle.opening.specs.Inverse.{HoldsInverse};
ghost use Rattle.opening.specs.Ending.{KeyFails};

use crate::Failure;
use crate::key::PrivateKey;
use sets::Set;

/// The columns of `plain` of the rows of `mixed`, of a matrix with `columns` columns from place k on, in the left half of rows of 2u.
#[tactic(auto, using(crate::proofs::Matrices::row_fits))]
pub(crate) fn fill_rows(
    matrix: &mut [u16],
    ge: &[u16],
    mixed: &[u16],
    plain: &[u16],
    k: usize,
    columns: usize,
)
    requires lengths { length mixed.now ≡ length plain.now }
    requires few { length mixed.now < 65536 }
    requires whole { length matrix.old ≡ length mixed.now * (length mixed.now + length mixed.now) }
    requires ge { length ge.now ≡ k * columns }
    requires mixed { (a : ℕ) → a < length mixed.now → get_or mixed.now a 0 < k }
    requires plain { (b : ℕ) → b < length plain.now → (k ≤ get_or plain.now b 0) × (get_or plain.now b 0 < k + columns) }
    ensures { (a b : ℕ) → a < length mixed.now → b < length mixed.now → get_or matrix.new (a * (length mixed.now + length mixed.now) + b) 0 ≡ get_or ge.now (get_or mixed.now a 0 * columns + (get_or plain.now b 0 - k)) 0 }
{
    let u = mixed.len();
    for a in 0..u {
        for b in 0..u {
            matrix[a * (u + u) + b] = ge[mixed[a] as usize * columns + (plain[b] as usize - k)];
        }
    }
}

/// W and beside it its inverse, in rows.
pub(crate) fn invert_w(
    key: &PrivateKey,
    ge: &[u16],
    mixed: &[u16],
    plain: &[u16],
    matrix: &mut [u16],
) -> Result<(), Failure>
    requires formed { WellFormed key.now.parameters.set key.now.bytes.now }
    requires ge { ge.now ≡ (held key.now).ge }
    requires ge_len { length ge.now ≡ key.now.parameters.set.k * (key.now.parameters.set.n + key.now.parameters.set.w - key.now.parameters.set.k) }
    requires mixed { mixed.now ≡ places_i key.now.parameters.set (held key.now) }
    requires plain { plain.now ≡ places_t key.now.parameters.set (held key.now) }
    requires whole { length matrix.old ≡ length mixed.now * (length mixed.now + length mixed.now) }
    ensures inverse { OnOk result (HoldsInverse key.now.parameters.set (held key.now) (length mixed.now) matrix.new) }
    ensures singular { IfErr result (KeyFails key.now.parameters.set key.now.bytes.now) }
{
    let Set { n, k, w, .. } = key.parameters.set;
    fill_rows(matrix, ge, mixed, plain, k, n + w - k);
    match linear::inverse::invert(matrix, mixed.len()) {
        Ok(()) => Ok(()),
        Err(_) => Err(Failure::Singular),
    }
}

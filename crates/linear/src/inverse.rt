//! The inverse of a square matrix, by elimination beside the identity matrix.
ghost use Rattle.std.specs.Prelude.{◌≡◌, ◌+◌, ◌*◌, ◌<◌, ◌≤◌, length};
ghost use Rattle.gf.specs.Ten.{ten};
ghost use Rattle.linear.specs.Inverse.{LeftHalf, identity, beside_row, beside, inverted, Inverts};

use crate::eliminate;

/// There is no inverse.
#[derive(Clone, Copy, Debug, PartialEq, Eq)]
pub struct Singular;

// The entry of the identity matrix at row i, column j.
fn identity_entry(i: usize, j: usize) -> u16
    ensures { result ≡ identity i j }
{
    if i == j { 1 } else { 0 }
}

// Row i of the identity matrix, in the right half of row i.
fn put_identity_row(m: &mut [u16], n: usize, i: usize)
    requires fits { i * (n + n) + (n + n) ≤ length m.old }
    ensures { m.new ≡ beside_row n i m.old }
{
    let at = i * (n + n) + n;
    for j in 0..n {
        m[at + j] = identity_entry(i, j);
    }
}

// The identity matrix in the right half of n rows of 2n.
fn put_identity(m: &mut [u16], n: usize)
    requires fits { n * (n + n) ≤ length m.old }
    ensures { m.new ≡ beside n m.old }
{
    for i in 0..n {
        put_identity_row(m, n, i);
    }
}

/// Inverts the matrix in the left half of n rows of 2n: where there is an inverse, it stands in the right half afterwards.
pub fn invert(m: &mut [u16], n: usize) -> Result<(), Singular>
    requires half { LeftHalf ten n m.old }
    requires small { n < 65536 }
    ensures { Inverts n (inverted ten n m.old) m.new result }
{
    put_identity(m, n);
    let outcome = eliminate(m, n, n + n, n);
    if outcome.cols < n {
        return Err(Singular);
    }
    Ok(())
}

//! Sums of the rows of a matrix, each row times its factor.
ghost use Rattle.std.specs.Prelude.{◌≡◌, ℕ, ◌+◌, ◌*◌, ◌<◌, ◌≤◌, length, get_or, EachIndex};
ghost use Rattle.gf.specs.Ten.{ten};
ghost use Rattle.scheme.specs.Sealing.{combined};

/// The sum of the rows, of which one begins every `stride` numbers.
#[tactic(auto, using(crate::proofs::Combining::combined_none))]
pub(crate) fn combine(factors: &[u16], matrix: &[u16], stride: usize, out: &mut [u16])
    requires rows { (i : ℕ) → i < length factors.now → i * stride + length out.old ≤ length matrix.now }
    ensures { EachIndex out.new (λ j. get_or out.new j 0 ≡ combined ten factors.now (length factors.now) (λ i. get_or matrix.now (i * stride + j) 0)) }
{
    out.fill(0);
    let columns = out.len();
    for (i, factor) in factors.iter().enumerate() {
        gf::add_multiple(out, *factor, &matrix[i * stride..i * stride + columns]);
    }
}

//! The power sums of the corrected word, from those of the word before it and from the values that were added.
ghost use Rattle.std.specs.Prelude.{◌≡◌, ℕ, ◌+◌, ◌<◌, length, get_or};
ghost use Rattle.gf.specs.Field.{◌⊕◌};
ghost use Rattle.gf.specs.Ten.{ten};
ghost use Rattle.code.specs.Stages.{total, Elements, brought};

// The sum of the numbers.
fn total(values: &[u16]) -> u16
    ensures { result ≡ total (length values.now) (λ k. get_or values.now k 0) }
{
    let mut sum = 0;
    for x in values {
        sum ^= *x;
    }
    sum
}

/// What the values at these points bring is added to the power sums, from number 1 on. The values become products of theirs.
pub fn add_sums(sums: &mut [u16], points: &[u16], values: &mut [u16])
    requires same { length values.old ≡ length points.now }
    requires small { Elements ten values.old }
    ensures { (j : ℕ) → j < length sums.old → get_or sums.new j 0 ≡ get_or sums.old j 0 ⊕ brought ten values.old points.now (1 + j) }
{
    for j in 0..sums.len() {
        gf::multiply(values, points);
        sums[j] ^= total(values);
    }
}

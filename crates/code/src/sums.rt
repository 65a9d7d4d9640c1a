//! Power sums, all of them at once by Horner's rule.
ghost use Rattle.std.specs.Prelude.{◌≡◌, ◌↔◌, ℕ, ◌+◌, ◌<◌, length, get_or, IsTrue};
ghost use Rattle.gf.specs.Field.{◌⊕◌, mul};
ghost use Rattle.gf.specs.Ten.{ten};
ghost use Rattle.code.specs.Stages.{Elements, Powers, PowerSums, AllZero};

// The powers of α from number `from` on.
fn fill_powers(powers: &mut [u16], from: usize)
    ensures { Powers ten from powers.new }
{
    let alpha = gf::power(1);
    let mut next = gf::power(from);
    for i in 0..powers.len() {
        powers[i] = next;
        next = gf::product(alpha, next);
    }
}

// x is added to each number.
fn add_to_all(sums: &mut [u16], x: u16)
    ensures { (j : ℕ) → j < length sums.old → get_or sums.new j 0 ≡ get_or sums.old j 0 ⊕ x }
{
    for i in 0..sums.len() {
        sums[i] ^= x;
    }
}

// One turn of Horner's rule: each sum times its power, and x added.
fn horner(sums: &mut [u16], powers: &[u16], x: u16)
    requires same { length powers.now ≡ length sums.old }
    ensures { (j : ℕ) → j < length sums.old → get_or sums.new j 0 ≡ mul ten (get_or sums.old j 0) (get_or powers.now j 0) ⊕ x }
{
    gf::multiply(sums, powers);
    add_to_all(sums, x);
}

/// The word's power sums from number `from` on, with the powers of α that they take.
pub fn power_sums(word: &[u16], from: usize, sums: &mut [u16], powers: &mut [u16])
    requires same { length powers.old ≡ length sums.old }
    requires small { Elements ten word.now }
    ensures sums { PowerSums ten word.now from sums.new }
    ensures powers { Powers ten from powers.new }
{
    sums.fill(0);
    fill_powers(powers, from);
    for i in (0..word.len()).rev() {
        horner(sums, powers, word[i]);
    }
}

/// Whether the numbers are all 0.
pub fn all_zero(sums: &[u16]) -> bool
    ensures { IsTrue result ↔ AllZero sums.now }
{
    sums.iter().all(|x| *x == 0)
}

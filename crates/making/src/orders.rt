//! The two permutations, and the first window of the second that mixes few of the first k columns.
ghost use Rattle.std.specs.Prelude.{◌≡◌, ◌+◌, ◌-◌, ◌≤◌, ◌<◌, length, take, count_by, nat_le, IfOk, IfErr, OnErr};
ghost use Rattle.scheme.specs.Setup.{permutation1, permutation2, window};

use crate::random::Random;
use scheme::Refusal;

/// The first permutation.
pub fn draw_first(random: &Random, order: &mut [u16])
    requires { length order.old ≡ random.now.parameters.set.n }
    ensures { order.new ≡ permutation1 random.now.parameters.set random.now.bytes.now }
{
    perm::shuffle(random.for_first(), order);
}

/// How many of the first k are d or more.
fn mixed_below(order: &[u16], d: usize, k: usize) -> usize
    requires { k ≤ length order.now }
    ensures { result ≡ count_by (λ x. nat_le d x) (take k order.now) }
{
    order[..k]
        .iter()
        .map(|x| usize::from(d <= usize::from(*x)))
        .sum()
}

/// The second permutation from the first window that mixes at most u0 of the first k columns, and that window's number.
pub fn draw_second(random: &Random, order: &mut [u16]) -> Result<usize, Refusal>
    requires { length order.old ≡ random.now.parameters.set.n + random.now.parameters.set.w }
    ensures first { IfOk result (λ p. window random.now.parameters.set random.now.bytes.now ≡ p) }
    ensures within { IfOk result (λ p. p < 5) }
    ensures order { IfOk result (λ p. order.new ≡ permutation2 random.now.parameters.set random.now.bytes.now p) }
    ensures none { OnErr result (window random.now.parameters.set random.now.bytes.now ≡ 5) }
    ensures refusal { IfErr result (λ e. e ≡ Refusal.NoWindow) }
{
    let set = random.parameters.set;
    for p in 0..5 {
        perm::shuffle(random.for_second(p), order);
        if mixed_below(order, set.n - set.w, set.k) <= set.u0 {
            return Ok(p);
        }
    }
    Err(Refusal::NoWindow)
}

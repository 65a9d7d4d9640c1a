//! Lists of places that pass a test, rising.
ghost use Rattle.std.specs.Prelude.{◌≡◌, ℕ, Bool, ◌+◌, ◌-◌, ◌<◌, ◌≤◌, length, take};
ghost use Rattle.scheme.specs.Lists.{passing, inverse_of};
ghost use Rattle.scheme.specs.Keys.{WellFormed};
ghost use Rattle.scheme.specs.Opening.{places_i, places_t};
ghost use Rattle.opening.specs.Held.{held};
ghost use Rattle.opening.specs.Listing.{Listed};

use crate::key::PrivateKey;
use sets::Set;

/// Lists the places from `from` up to `to` that pass the test, as many as there is room for. Answers how many pass.
pub(crate) fn list_places<F: Fn(usize) -> bool>(
    from: usize,
    to: usize,
    passes: F,
    out: &mut [u16],
) -> usize
    requires callable { (j : ℕ) → from ≤ j → j < to → F.pre passes j }
    requires order { from ≤ to }
    requires places { to ≤ 65536 }
    ensures few { result ≤ to - from }
    ensures listed { (p : ℕ → Bool) → ((j : ℕ) (yes : Bool) → from ≤ j → j < to → F.post passes j yes → yes ≡ p j) → Listed (passing p from (to - from)) out.new result }
{
    let mut count = 0;
    for j in from..to {
        if passes(j) {
            if count < out.len() {
                out[count] = j as u16;
            }
            count += 1;
        }
    }
    count
}

/// The places I: those below k that P2 mixes. Answers how many there are.
pub(crate) fn list_mixed(key: &PrivateKey, second: &[u16], out: &mut [u16]) -> usize
    requires second { second.now ≡ inverse_of (held key.now).q2 }
    requires long { length second.now ≡ key.now.parameters.set.n + key.now.parameters.set.w }
    requires room { length out.old ≡ key.now.parameters.set.k }
    ensures few { result ≤ key.now.parameters.set.k }
    ensures places { take result out.new ≡ places_i key.now.parameters.set (held key.now) }
{
    let Set { n, k, w, .. } = key.parameters.set;
    let unmixed = n - w;
    list_places(0, k, |j| unmixed <= second[j] as usize, out)
}

/// The places T: the first from k on that P2 does not mix, as many as I has.
pub(crate) fn list_plain(key: &PrivateKey, second: &[u16], out: &mut [u16])
    requires formed { WellFormed key.now.parameters.set key.now.bytes.now }
    requires second { second.now ≡ inverse_of (held key.now).q2 }
    requires long { length second.now ≡ key.now.parameters.set.n + key.now.parameters.set.w }
    requires as_many { length out.old ≡ length (places_i key.now.parameters.set (held key.now)) }
    ensures { out.new ≡ places_t key.now.parameters.set (held key.now) }
{
    let Set { n, k, w, .. } = key.parameters.set;
    let unmixed = n - w;
    list_places(k, n + w, |j| (second[j] as usize) < unmixed, out);
}

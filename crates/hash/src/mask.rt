//! The mask generator RLCE_MGF512 (RLCE-KEM specification of September 14, 2017, section 7.4) over a seed that a hasher was given, or
//! that comes in parts.
//!
//! That a seed leaves room for a counter is a clause of the masks alone: a hasher takes more, so it is no fact of its type.
ghost use Rattle.std.specs.Prelude.{◌≡◌, ℕ, ◌+◌, ◌^◌, ◌<◌, ◌≤◌, List, [], ◌++◌, length, map};
ghost use Rattle.std.specs.List.{concat};
ghost use Rattle.hash.specs.Sha.{sha512};
ghost use Rattle.hash.specs.Mask.{bytes4, mgf, xored};
ghost use Rattle.hash.specs.Held.{Holds};

use crate::hasher::Hasher;

#[tactic(auto, using(crate::proofs::Bytes::low_bytes))]
fn counter(n: usize) -> [u8; 4]
    ensures { result ≡ bytes4 n }
{
    let [.., a, b, c, d] = n.to_be_bytes();
    [a, b, c, d]
}

// The digest of the seed and the counter n.
fn nth(h: &Hasher, n: usize, out: &mut [u8; 64])
    requires { h.now.len < 2 ^ 63 }
    ensures { (seed : List ℕ) → Holds h.now seed → out.new ≡ sha512 (seed ++ bytes4 n) }
{
    let mut hasher = *h;
    hasher.update(&counter(n));
    hasher.finish(out);
}

// Lays a mask over s.
#[tactic(auto, using(crate::proofs::Masks::over_none, crate::proofs::Masks::over_done))]
fn xor_into(s: &mut [u8], mask: &[u8])
    requires { length s.old ≤ length mask.now }
    ensures { s.new ≡ xored s.old mask.now }
{
    for (i, byte) in s.iter_mut().enumerate() {
        *byte ^= mask[i];
    }
}

/// Lays the mask of the seed that h was given over s.
pub fn xor_mask(h: &Hasher, s: &mut [u8])
    requires { h.now.len < 2 ^ 63 }
    ensures { (seed : List ℕ) → Holds h.now seed → s.new ≡ xored s.old (mgf seed (length s.old)) }
{
    let mut digest = [0; 64];
    for n in 0..s.len().div_ceil(64) {
        nth(h, n, &mut digest);
        let end = s.len().min(64 * n + 64);
        xor_into(&mut s[64 * n..end], &digest);
    }
}

/// The mask of the seed that h was given, into s.
pub fn fill_mask(h: &Hasher, s: &mut [u8])
    requires { h.now.len < 2 ^ 63 }
    ensures { (seed : List ℕ) → Holds h.now seed → s.new ≡ mgf seed (length s.old) }
{
    s.fill(0);
    xor_mask(h, s);
}

// A hasher that was given nothing is given the parts, one after the other.
#[inline(always)]
fn add_parts(hasher: &mut Hasher, seed: &[&[u8]])
    requires empty { Holds hasher.old [] }
    requires fits { length (concat (map (λ part. part.now) seed.now)) < 2 ^ 64 }
    ensures { Holds hasher.new (concat (map (λ part. part.now) seed.now)) }
{
    for part in seed {
        hasher.update(part);
    }
}

/// Lays the mask of the seed that the parts are, one after the other, over s.
pub fn xor_mask_of(seed: &[&[u8]], s: &mut [u8])
    requires { length (concat (map (λ part. part.now) seed.now)) < 2 ^ 63 }
    ensures { s.new ≡ xored s.old (mgf (concat (map (λ part. part.now) seed.now)) (length s.old)) }
{
    let mut hasher = Hasher::new();
    add_parts(&mut hasher, seed);
    xor_mask(&hasher, s);
}

/// The mask of the seed that the parts are, one after the other, into s.
pub fn fill_mask_of(seed: &[&[u8]], s: &mut [u8])
    requires { length (concat (map (λ part. part.now) seed.now)) < 2 ^ 63 }
    ensures { s.new ≡ mgf (concat (map (λ part. part.now) seed.now)) (length s.old) }
{
    let mut hasher = Hasher::new();
    add_parts(&mut hasher, seed);
    fill_mask(&hasher, s);
}

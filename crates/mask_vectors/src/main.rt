//! Masks, one to a line: lengths of seed and mask, the answer, and the digest of the slice afterwards, which began with sevens.
//! scripts/hash-vectors makes the expected output with another implementation.
#![tactic(auto)]

use hash::calls::mask;

fn show(seed: &[u8], out: &mut [u8]) {
    let answer = mask(seed, out);
    vectors::number(seed.len());
    vectors::number(out.len());
    vectors::number(usize::from(lists::number(answer)));
    vectors::line(&hash::hasher::digest(out));
}

fn one(seed: &[u8], n: usize) {
    let mut out = [7u8; 65537];
    if n <= 65537 {
        show(seed, &mut out[0..n]);
    }
}

// The masks of the first n bytes of p.
fn masks(p: &[u8], n: usize) {
    if n <= p.len() {
        let seed = &p[0..n];
        one(seed, 0);
        one(seed, 1);
        one(seed, 63);
        one(seed, 64);
        one(seed, 65);
        one(seed, 128);
        one(seed, 1000);
        one(seed, 65536);
        one(seed, 65537);
    }
}

fn main() {
    let mut p = [0u8; 65537];
    vectors::pattern(&mut p);
    masks(&p, 0);
    masks(&p, 1);
    masks(&p, 32);
    masks(&p, 128);
    masks(&p, 65536);
    masks(&p, 65537);
}

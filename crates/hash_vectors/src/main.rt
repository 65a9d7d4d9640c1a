//! Digests, one to a line: the examples of FIPS 180-4, a pattern at many lengths, and what the call leaves of a slice that it
//! refuses. scripts/hash-vectors makes the expected output with another implementation.
#![tactic(auto)]

use hash::calls::sha512;
use hash::hasher::Hasher;

// The digest by the call for users: its answer, and the slice afterwards.
fn call(s: &[u8], out: &mut [u8]) {
    let answer = sha512(s, out);
    vectors::number(usize::from(lists::number(answer)));
    vectors::line(out);
}

fn example(s: &[u8]) {
    let mut out = [0u8; 64];
    call(s, &mut out);
}

// A million times the letter a, in parts of a thousand.
fn million() {
    let mut hasher = Hasher::new();
    for _part in 0..1000u64 {
        hasher.update(&[b'a'; 1000]);
    }
    let mut digest = [0; 64];
    hasher.finish(&mut digest);
    vectors::line(&digest);
}

// The first n bytes of p.
fn first(p: &[u8], n: usize) {
    if n <= p.len() {
        vectors::number(n);
        example(&p[0..n]);
    }
}

fn lengths(p: &[u8]) {
    for n in 0..=300 {
        first(p, n);
    }
}

fn refused(n: usize) {
    let mut out = [7u8; 65];
    if n <= 65 {
        call(b"abc", &mut out[0..n]);
    }
}

fn main() {
    example(b"");
    example(b"abc");
    example(
        b"abcdefghbcdefghicdefghijdefghijkefghijklfghijklmghijklmnhijklmnoijklmnopjklmnopqklmnopqrlmnopqrsmnopqrstnopqrstu",
    );
    million();
    let mut p = [0u8; 100003];
    vectors::pattern(&mut p);
    lengths(&p);
    first(&p, 1000);
    first(&p, 4096);
    first(&p, 65535);
    first(&p, 65536);
    first(&p, 100003);
    refused(0);
    refused(63);
    refused(65);
}

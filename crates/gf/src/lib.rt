//! The field GF(2^10), modulo x^10 + x^3 + 1: elements are numbers below 1024, addition is exclusive or, α is 2.
//! For the layers above: functions on elements and kernels on rows and runs, total on all numbers, with no table indexed by a value
//! but in `power`. For users: the field calls in `calls`, which refuse what is no element.
#![tactic(auto)]

ghost use Rattle.std.specs.Prelude.{◌≡◌, ℕ, ◌+◌, ◌*◌, ◌%◌, ◌<◌, ◌≤◌, length};
ghost use Rattle.gf.specs.Field.{size, times_x, mul, alpha, inverse};
ghost use Rattle.gf.specs.Ten.{ten};
ghost use Rattle.gf.specs.Runs.{row_plus, row_times, add_run, scale_run, mul_run};
ghost use Rattle.gf.specs.Digits.{multiples};

pub mod calls;
mod logs;
mod pows;

use pows::pow_at;

// α times v
fn times_alpha(v: u16) -> u16
    ensures { result ≡ times_x ten v }
{
    (v % 512 * 2) ^ (v / 512 % 2 * 9)
}

// f times the ten powers of α from α^0 on
fn multiples(f: u16) -> [u16; 10]
    ensures { result ≡ multiples ten 10 (f % size ten) }
{
    let mut t = [0; 10];
    let mut next = f % 1024;
    for i in 0..10usize {
        t[i] = next;
        next = times_alpha(next);
    }
    t
}

// f times v, from f's multiples t: the sum of those that v's ten low digits ask for
fn combine(t: [u16; 10], v: u16) -> u16
    ensures { (f : ℕ) → t ≡ multiples ten 10 (f % size ten) → result ≡ mul ten f v }
{
    let mut sum = 0;
    for i in 0..10usize {
        sum ^= (v >> i) % 2 * t[i];
    }
    sum
}

/// the product, with no table and no branch: of a number past the field its ten low digits count
pub fn product(a: u16, b: u16) -> u16
    ensures value { result ≡ mul ten a b }
    ensures small { result < size ten }
{
    combine(multiples(b), a)
}

/// the inverse, with no table and no branch on the value: a ^ 1022, the product of a ^ 2, a ^ 4, .., a ^ 512; 0 at 0
pub fn reciprocal(a: u16) -> u16
    ensures value { result ≡ inverse ten a }
    ensures small { result < size ten }
{
    let mut r: u16 = 1;
    let mut s = a;
    for _ in 0..9usize {
        s = product(s, s);
        r = product(r, s);
    }
    r
}

/// α to the i, for every i
pub fn power(i: usize) -> u16
    ensures value { result ≡ alpha ten i }
    ensures small { result < size ten }
{
    pow_at(i % 1023)
}

/// factor times each element of `by`, added to its partner in row
pub fn add_multiple(row: &mut [u16], factor: u16, by: &[u16])
    requires same_length { length by.now ≡ length row.old }
    ensures { row.new ≡ row_plus ten factor by.now row.old }
{
    let t = multiples(factor);
    for i in 0..row.len() {
        row[i] ^= combine(t, by[i]);
    }
}

/// each element of row times its partner in `by`
pub fn multiply(row: &mut [u16], by: &[u16])
    requires same_length { length by.now ≡ length row.old }
    ensures { row.new ≡ row_times ten by.now row.old }
{
    for i in 0..row.len() {
        let t = multiples(by[i]);
        row[i] = combine(t, row[i]);
    }
}

// The three below are on runs of one slice, which may overlap: so they are loops by hand over places.

/// f times the n elements from src on, added to those from dst on
pub fn add_run(s: &mut [u16], dst: usize, src: usize, n: usize, f: u16)
    requires dst_fits { dst + n ≤ length s.old }
    requires src_fits { src + n ≤ length s.old }
    ensures { s.new ≡ add_run ten dst src n f s.old }
{
    let t = multiples(f);
    for i in 0..n {
        s[dst + i] ^= combine(t, s[src + i]);
    }
}

/// the n elements from `at` on, times f
pub fn scale_run(s: &mut [u16], at: usize, n: usize, f: u16)
    requires fits { at + n ≤ length s.old }
    ensures { s.new ≡ scale_run ten at n f s.old }
{
    let t = multiples(f);
    for i in 0..n {
        s[at + i] = combine(t, s[at + i]);
    }
}

/// the n elements from dst on, each times its partner among those from src on
pub fn mul_run(s: &mut [u16], dst: usize, src: usize, n: usize)
    requires dst_fits { dst + n ≤ length s.old }
    requires src_fits { src + n ≤ length s.old }
    ensures { s.new ≡ mul_run ten dst src n s.old }
{
    for i in 0..n {
        let t = multiples(s[src + i]);
        s[dst + i] = combine(t, s[dst + i]);
    }
}

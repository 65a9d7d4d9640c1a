//! The message schedule, the rounds and the compression of a block: FIPS 180-4, section 6.4.2.
//! The schedule is a ring of the last sixteen words, and a turn is sixteen rounds: a compiler then keeps the words in place. Kept as calls of
//! four rounds by hand, since the compiler does not unroll a loop of sixteen.
ghost use Rattle.std.specs.Prelude.{◌≡◌, ℕ, ◌+◌, ◌*◌, ◌/◌, ◌<◌, ◌≤◌, List, length, slice_index, slice_set};
ghost use Rattle.hash.specs.Constants.{k_table};
ghost use Rattle.hash.specs.Sha.{word, round, plus, compress, chain};
ghost use Rattle.hash.specs.Held.{At, Ring, next_word};

use crate::constants::table;
use crate::word::{Words, bsig0, bsig1, ch, maj, ssig0, ssig1};

// The word whose eight bytes stand from `at` on.
#[inline(always)]
#[tactic(auto, using(crate::proofs::Bytes::word_of))]
fn load(b: &[u8], at: usize) -> u64
    requires { at + 8 ≤ length b.now }
    ensures { result ≡ word b.now at }
{
    u64::from_be_bytes([
        b[at],
        b[at + 1],
        b[at + 2],
        b[at + 3],
        b[at + 4],
        b[at + 5],
        b[at + 6],
        b[at + 7],
    ])
}

// The word of the round that is p rounds into a turn, in the place of the word sixteen rounds before it.
#[inline(always)]
#[tactic(auto, unfolding(crate::specs::Word::add))]
fn next_word(w: &mut [u64; 16], p: usize) -> u64
    requires { p < 16 }
    ensures value { result ≡ next_word w.old p }
    ensures ring { w.new ≡ slice_set w.old p result }
{
    let recent = ssig1(w[(p + 14) % 16]).wrapping_add(w[(p + 9) % 16]);
    let early = recent.wrapping_add(ssig0(w[(p + 1) % 16]));
    let word = early.wrapping_add(w[p]);
    w[p] = word;
    word
}

// Working variables after a round.
#[inline(always)]
#[tactic(auto, unfolding(crate::specs::Sha::round, crate::specs::Sha::t1, crate::specs::Sha::t2, crate::specs::Word::add))]
fn round(s: Words, k: u64, w: u64) -> Words
    ensures { result ≡ round s k w }
{
    let t1 = s
        .h
        .wrapping_add(bsig1(s.e))
        .wrapping_add(ch(s.e, s.f, s.g))
        .wrapping_add(k)
        .wrapping_add(w);
    let t2 = bsig0(s.a).wrapping_add(maj(s.a, s.b, s.c));
    Words {
        a: t1.wrapping_add(t2),
        b: s.a,
        c: s.b,
        d: s.c,
        e: s.d.wrapping_add(t1),
        f: s.e,
        g: s.f,
        h: s.g,
    }
}

// The four rounds from t on, whose words were loaded.
#[inline(always)]
fn first_four(v: Words, w: &[u64; 16], t: usize) -> Words
    requires { t ≤ 12 }
    ensures { (s : Words) (b : List ℕ) → Ring b 16 w.now → At s b t v → At s b (t + 4) result }
{
    let k = table();
    let v = round(v, k[t], w[t]);
    let v = round(v, k[t + 1], w[t + 1]);
    let v = round(v, k[t + 2], w[t + 2]);
    round(v, k[t + 3], w[t + 3])
}

// The four rounds of turn `turn` from the one p rounds into it, each with the word that it makes.
#[inline(always)]
fn turn_four(v: Words, w: &mut [u64; 16], turn: usize, p: usize) -> Words
    requires later_turn { (1 ≤ turn) × (turn < 5) }
    requires place { p ≤ 12 }
    ensures { (s : Words) (b : List ℕ) → Ring b (16 * turn + p) w.old → At s b (16 * turn + p) v → Ring b (16 * turn + p + 4) w.new × At s b (16 * turn + p + 4) result }
{
    let k = table();
    let t = 16 * turn + p;
    let word = next_word(w, p);
    let v = round(v, k[t], word);
    let word = next_word(w, p + 1);
    let v = round(v, k[t + 1], word);
    let word = next_word(w, p + 2);
    let v = round(v, k[t + 2], word);
    let word = next_word(w, p + 3);
    round(v, k[t + 3], word)
}

// Adds the working variables to the hash value.
#[tactic(auto, unfolding(crate::specs::Sha::plus, crate::specs::Word::add))]
fn add(s: &mut Words, v: Words)
    ensures { s.new ≡ plus s.old v }
{
    s.a = s.a.wrapping_add(v.a);
    s.b = s.b.wrapping_add(v.b);
    s.c = s.c.wrapping_add(v.c);
    s.d = s.d.wrapping_add(v.d);
    s.e = s.e.wrapping_add(v.e);
    s.f = s.f.wrapping_add(v.f);
    s.g = s.g.wrapping_add(v.g);
    s.h = s.h.wrapping_add(v.h);
}

/// The hash value goes on over the block `b`.
pub fn compress(s: &mut Words, b: &[u8])
    requires { 128 ≤ length b.now }
    ensures { s.new ≡ compress s.old b.now }
{
    let mut w = [0u64; 16];
    for i in 0..16 {
        w[i] = load(b, 8 * i);
    }
    let mut v = *s;
    v = first_four(v, &w, 0);
    v = first_four(v, &w, 4);
    v = first_four(v, &w, 8);
    v = first_four(v, &w, 12);
    for turn in 1..5 {
        v = turn_four(v, &mut w, turn, 0);
        v = turn_four(v, &mut w, turn, 4);
        v = turn_four(v, &mut w, turn, 8);
        v = turn_four(v, &mut w, turn, 12);
    }
    add(s, v);
}

/// And over every whole block of `p`, one after the other.
pub fn blocks(s: &mut Words, p: &[u8])
    ensures { s.new ≡ chain s.old p.now (length p.now / 128) }
{
    for i in 0..p.len() / 128 {
        compress(s, &p[128 * i..128 * i + 128]);
    }
}

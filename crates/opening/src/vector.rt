//! From the code word to the vector: read back at the unmixed places, solved for the others.
//!
//! The word and the vector stay slices with their lengths as clauses: a struct for each length would be made and taken apart at each call.
ghost use Rattle.std.specs.Prelude.{◌≡◌, ◌≢◌, ℕ, ◌+◌, ◌-◌, ◌*◌, ◌<◌, ◌≤◌, length, get_or, take, EachIndex};
ghost use Rattle.gf.specs.Ten.{ten};

use crate::prepare::PreparedKey;
use crate::sums::combine;
use sets::Set;

impl<'a, 'w> PreparedKey<'a, 'w> {
    ghost use Rattle.scheme.specs.Opening.{redone, places_i, Vector};
    ghost use Rattle.scheme.specs.Sealing.{combined, encoded};
    ghost use Rattle.opening.specs.Held.{held};
    ghost use Rattle.opening.specs.Vector.{known_of, side_of};

    /// The code word's element at place j of the order that P1 made, times its multiplier.
    fn redone(&self, word: &[u16], j: usize) -> u16
        requires word { length word.now ≡ self.now.key.parameters.set.n }
        requires place { j < self.now.key.parameters.set.n }
        ensures { result ≡ redone self.now.key.parameters.set (held self.now.key) word.now j }
    {
        let i = self.first[j] as usize;
        gf::product(word[i], gf::reciprocal(self.key.inverse(i)))
    }

    /// What is read back at place i below k, and 0 where it is mixed.
    fn known(&self, word: &[u16], i: usize) -> u16
        requires word { length word.now ≡ self.now.key.parameters.set.n }
        requires place { i < self.now.key.parameters.set.k }
        ensures { result ≡ known_of self.now.key.parameters.set (held self.now.key) word.now i }
    {
        let Set { n, w, .. } = self.key.parameters.set;
        let p = self.second[i] as usize;
        if p < n - w { self.redone(word, p) } else { 0 }
    }

    /// What is read back.
    fn read_back(&self, word: &[u16], vector: &mut [u16])
        requires word { length word.now ≡ self.now.key.parameters.set.n }
        requires vector { length vector.old ≡ self.now.key.parameters.set.k }
        ensures { EachIndex vector.new (λ i. get_or vector.new i 0 ≡ known_of self.now.key.parameters.set (held self.now.key) word.now i) }
    {
        for (i, x) in vector.iter_mut().enumerate() {
            *x = self.known(word, i);
        }
    }

    /// The vector's products with the columns of GE.
    fn encode(&self, vector: &[u16], tail: &mut [u16])
        requires vector { length vector.now ≡ self.now.key.parameters.set.k }
        requires tail { length tail.old ≡ self.now.key.parameters.set.n + self.now.key.parameters.set.w - self.now.key.parameters.set.k }
        ensures { EachIndex tail.new (λ j. get_or tail.new j 0 ≡ combined ten vector.now self.now.key.parameters.set.k (λ i. get_or (held self.now.key).ge (i * (self.now.key.parameters.set.n + self.now.key.parameters.set.w - self.now.key.parameters.set.k) + j) 0)) }
    {
        let columns = tail.len();
        combine(vector, self.ge, columns, tail);
    }

    /// The right side of the system at the b-th place of T: the word of what is read back, and what it has to be.
    fn side(&self, word: &[u16], tail: &[u16], b: usize) -> u16
        requires word { length word.now ≡ self.now.key.parameters.set.n }
        requires tail { length tail.now ≡ self.now.key.parameters.set.n + self.now.key.parameters.set.w - self.now.key.parameters.set.k }
        requires place { b < length self.now.plain.now }
        ensures { result ≡ side_of self.now.key.parameters.set (held self.now.key) word.now tail.now b }
    {
        let p = self.plain[b] as usize;
        tail[p - self.key.parameters.set.k] ^ self.redone(word, self.second[p] as usize)
    }

    /// The right side of the system.
    fn right_side(&self, word: &[u16], tail: &[u16], right: &mut [u16])
        requires word { length word.now ≡ self.now.key.parameters.set.n }
        requires tail { length tail.now ≡ self.now.key.parameters.set.n + self.now.key.parameters.set.w - self.now.key.parameters.set.k }
        requires right { length right.old ≡ length self.now.plain.now }
        ensures { EachIndex right.new (λ b. get_or right.new b 0 ≡ side_of self.now.key.parameters.set (held self.now.key) word.now tail.now b) }
    {
        for (b, x) in right.iter_mut().enumerate() {
            *x = self.side(word, tail, b);
        }
    }

    /// The solution of the system comes to the mixed places of the vector.
    fn spread(&self, solved: &[u16], vector: &mut [u16])
        requires solved { length solved.now ≡ length self.now.mixed.now }
        requires vector { length vector.old ≡ self.now.key.parameters.set.k }
        ensures mixed { (a : ℕ) → a < length self.now.mixed.now → get_or vector.new (get_or self.now.mixed.now a 0) 0 ≡ get_or solved.now a 0 }
        ensures others { (i : ℕ) → ((a : ℕ) → a < length self.now.mixed.now → i ≢ get_or self.now.mixed.now a 0) → get_or vector.new i 0 ≡ get_or vector.old i 0 }
    {
        for (a, p) in self.mixed.iter().enumerate() {
            vector[*p as usize] = solved[a];
        }
    }

    /// The vector that goes with the code word, and its products with the columns of GE.
    pub(crate) fn find_vector(
        &self,
        word: &[u16],
        sent: &mut [u16],
        right: &mut [u16],
        solved: &mut [u16],
    )
        requires word { length word.now ≡ self.now.key.parameters.set.n }
        requires sent { length sent.old ≡ self.now.key.parameters.set.n + self.now.key.parameters.set.w }
        requires right { length right.old ≡ length self.now.plain.now }
        requires solved { length solved.old ≡ length self.now.mixed.now }
        ensures vector { Vector self.now.key.parameters.set (held self.now.key) word.now (take self.now.key.parameters.set.k sent.new) }
        ensures sent { EachIndex sent.new (λ j. get_or sent.new j 0 ≡ encoded self.now.key.parameters.set (held self.now.key).ge (take self.now.key.parameters.set.k sent.new) j) }
    {
        let u = self.mixed.len();
        let (vector, tail) = sent.split_at_mut(self.key.parameters.set.k);
        self.read_back(word, vector);
        self.encode(vector, tail);
        self.right_side(word, tail, right);
        combine(right, &self.matrix[u..], u + u, solved);
        self.spread(solved, vector);
        self.encode(vector, tail);
    }
}

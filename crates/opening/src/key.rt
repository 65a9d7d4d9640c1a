//! A private key, read straight from its bytes.
ghost use Rattle.std.specs.Prelude.{◌≡◌, ◌≢◌, ◌↔◌, ℕ, IsTrue, IfOk, IfErr, Some, ◌+◌, ◌-◌, ◌*◌, ◌<◌, ◌≤◌, ◌^◌, length, get_or, drop};
ghost use Rattle.bits.specs.Bits.{tail_zero};
ghost use Rattle.bits.specs.Numbers.{numbers16};
ghost use Rattle.gf.specs.Field.{width};
ghost use Rattle.scheme.specs.Field.{field_of};
ghost use Rattle.sets.specs.Table.{set_of};
ghost use Rattle.scheme.specs.Keys.{lists_end};
ghost use Rattle.opening.specs.Given.{KeyRefused};

use scheme::Refusal;
use sets::{ParameterSet, Set};

/// A private key of its set's length. Nothing is known yet of its lists and elements.
#[derive(Clone, Copy)]
pub struct PrivateKey<'a> {
    pub parameters: ParameterSet,
    pub bytes: &'a [u8],
    pub ghost whole: { length bytes.now ≡ parameters.set.private },
    pub ghost element: { parameters.set.m ≡ width (field_of parameters.set) },
}

impl<'a> PrivateKey<'a> {
    ghost use Rattle.opening.specs.Held.{held};

    /// The key in these bytes, of the set that the first of them names.
    #[tactic(auto, using(crate::proofs::Naming::element_of, crate::proofs::Naming::key_refused))]
    pub fn read(bytes: &'a [u8]) -> Result<PrivateKey<'a>, Refusal>
        ensures bytes { IfOk result (λ key. key.bytes.now ≡ bytes.now) }
        ensures set { IfOk result (λ key. set_of (get_or bytes.now 0 0) ≡ Some key.parameters.set) }
        ensures refused { IfErr result (KeyRefused bytes.now) }
    {
        let Some(byte) = bytes.first() else {
            return Err(Refusal::WrongLength);
        };
        let Some(parameters) = sets::find(*byte) else {
            return Err(Refusal::UnknownSet);
        };
        if bytes.len() != parameters.set.private {
            return Err(Refusal::WrongLength);
        }
        Ok(PrivateKey { parameters, bytes })
    }

    /// Where the elements begin, in bytes.
    fn lists_end(&self) -> usize
        ensures { result ≡ lists_end self.now.parameters.set }
    {
        let Set { n, w, .. } = self.parameters.set;
        1 + 2 * n + 2 * (n + w)
    }

    /// Entry j of the inverse of P1.
    #[tactic(auto, using(crate::proofs::Reading::first_at))]
    pub(crate) fn first(&self, j: usize) -> usize
        requires { j < self.now.parameters.set.n }
        ensures { result ≡ get_or (held self.now).q1 j 0 }
    {
        bits::number_at(&self.bytes[1..], j)
    }

    /// Entry i of the inverse of P2.
    #[tactic(auto, using(crate::proofs::Reading::second_at))]
    pub(crate) fn second(&self, i: usize) -> usize
        requires { i < self.now.parameters.set.n + self.now.parameters.set.w }
        ensures { result ≡ get_or (held self.now).q2 i 0 }
    {
        let n = self.parameters.set.n;
        bits::number_at(&self.bytes[1 + 2 * n..], i)
    }

    /// The inverse of P1 in bytes.
    pub(crate) fn first_list(&self) -> &'a [u8]
        ensures numbers { numbers16 result.now ≡ (held self.now).q1 }
        ensures len { length result.now ≡ 2 * self.now.parameters.set.n }
    {
        let n = self.parameters.set.n;
        &self.bytes[1..1 + 2 * n]
    }

    /// The inverse of P2 in bytes.
    pub(crate) fn second_list(&self) -> &'a [u8]
        ensures numbers { numbers16 result.now ≡ (held self.now).q2 }
        ensures len { length result.now ≡ 2 * (self.now.parameters.set.n + self.now.parameters.set.w) }
    {
        let Set { n, w, .. } = self.parameters.set;
        &self.bytes[1 + 2 * n..1 + 2 * n + 2 * (n + w)]
    }

    /// Element i of the first columns of the inverse blocks.
    #[tactic(auto, using(crate::proofs::Reading::column_at))]
    pub(crate) fn column(&self, i: usize) -> u16
        requires { i < 2 * self.now.parameters.set.w }
        ensures { result ≡ get_or (held self.now).columns i 0 }
    {
        let m = self.parameters.set.m;
        bits::bits_at(self.bytes, m, 8 * self.lists_end() + m * i)
    }

    /// Inverse i of the multipliers.
    #[tactic(auto, using(crate::proofs::Reading::inverse_at))]
    pub(crate) fn inverse(&self, i: usize) -> u16
        requires { i < self.now.parameters.set.n }
        ensures { result ≡ get_or (held self.now).inverses i 0 }
    {
        let Set { m, w, .. } = self.parameters.set;
        bits::bits_at(self.bytes, m, 8 * self.lists_end() + m * (2 * w) + m * i)
    }

    /// Whether no inverse is zero.
    pub(crate) fn none_zero(&self) -> bool
        ensures { IsTrue result ↔ ((i : ℕ) → i < self.now.parameters.set.n → get_or (held self.now).inverses i 0 ≢ 0) }
    {
        let n = self.parameters.set.n;
        for i in 0..n {
            if self.inverse(i) == 0 {
                return false;
            }
        }
        true
    }

    /// Whether the spare bits after the last element are zero.
    pub(crate) fn spare_zero(&self) -> bool
        ensures { result ≡ tail_zero self.now.parameters.set.m (drop (lists_end self.now.parameters.set) self.now.bytes.now) }
    {
        let m = self.parameters.set.m;
        let end = self.lists_end();
        bits::tail_zero(&self.bytes[end..], m)
    }

    /// GE, by rows.
    pub(crate) fn unpack_ge(&self, ge: &mut [u16])
        requires { length ge.old ≡ self.now.parameters.set.k * (self.now.parameters.set.n + self.now.parameters.set.w - self.now.parameters.set.k) }
        ensures { ge.new ≡ (held self.now).ge }
    {
        let Set { m, w, n, .. } = self.parameters.set;
        bits::unpack_at(self.bytes, m, 8 * self.lists_end() + m * (2 * w + n), ge);
    }
}

//! The random bytes of a setup: first its elements, then the 16-bit numbers that choose the permutations.
ghost use Rattle.std.specs.Prelude.{◌≡◌, ◌+◌, ◌-◌, ◌*◌, ◌^◌, ◌≤◌, ◌<◌, length, get_or, take, drop, min};
ghost use Rattle.gf.specs.Field.{width};
ghost use Rattle.gf.specs.Ten.{ten};
ghost use Rattle.bits.specs.Bits.{bytes_for};
ghost use Rattle.sets.specs.Valid.{setup_elements};
ghost use Rattle.scheme.specs.Setup.{drawn};
ghost use Rattle.making.specs.Drawing.{non_zero_among, shuffling_first, shuffling_second};

use sets::ParameterSet;

/// The random bytes, as many as the set asks for.
#[derive(Clone, Copy)]
pub struct Random<'a> {
    pub parameters: ParameterSet,
    pub bytes: &'a [u8],
    pub ghost whole: { length bytes.now ≡ parameters.set.random },
    pub ghost field: { parameters.set.m ≡ width ten },
}

impl<'a> Random<'a> {
    /// Element i.
    pub fn element(&self, i: usize) -> u16
        requires { i < setup_elements self.now.parameters.set }
        ensures { result ≡ get_or (drawn self.now.parameters.set self.now.bytes.now) i 0 }
    {
        let m = self.parameters.set.m;
        bits::bits_at(self.bytes, m, m * i)
    }

    /// Keeps the non-zero ones of `count` elements from number `from` on, as many as there is room for, and answers how many.
    pub fn keep_non_zero(&self, from: usize, count: usize, kept: &mut [u16]) -> usize
        requires { from + count ≤ setup_elements self.now.parameters.set }
        ensures count { result ≡ min (length kept.old) (length (non_zero_among self.now.parameters.set self.now.bytes.now from count)) }
        ensures kept { take result kept.new ≡ take result (non_zero_among self.now.parameters.set self.now.bytes.now from count) }
    {
        let mut found = 0;
        for i in 0..count {
            if found == kept.len() {
                return found;
            }
            let x = self.element(from + i);
            if x == 0 {
                continue;
            }
            kept[found] = x;
            found += 1;
        }
        found
    }

    /// Where the elements end.
    fn elements_end(&self) -> usize
        ensures { let s = self.now.parameters.set in result ≡ bytes_for s.m (setup_elements s) }
    {
        let set = self.parameters.set;
        (set.m * (set.n + (4 + set.k) * set.w + 25) + 7) / 8
    }

    /// The numbers that shuffle the first permutation.
    pub fn for_first(&self) -> &[u8]
        ensures { result.now ≡ shuffling_first self.now.parameters.set self.now.bytes.now }
    {
        let from = self.elements_end();
        let to = from + 2 * (self.parameters.set.n - 1);
        &self.bytes[from..to]
    }

    /// The numbers that shuffle the second permutation, in window p.
    pub fn for_second(&self, p: usize) -> &[u8]
        requires { p < 5 }
        ensures { result.now ≡ shuffling_second self.now.parameters.set self.now.bytes.now p }
    {
        let set = self.parameters.set;
        let from = self.elements_end() + (2 * set.n - 2 + p);
        let to = from + 2 * (set.n + set.w - 1);
        &self.bytes[from..to]
    }
}

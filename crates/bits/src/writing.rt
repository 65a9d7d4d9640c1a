//! Writing elements as bytes.
ghost use Rattle.std.specs.Prelude.{◌≡◌, ◌+◌, ◌*◌, ◌<◌, ◌≤◌, ◌^◌, length, get_or, drop};
ghost use Rattle.bits.specs.Bits.{bits, value, packed, bytes_for, Small, Decided};
ghost use Rattle.bits.specs.Steps.{Below};

use super::reading::cut;

/// The element at i, and 0 past the end.
fn word_at(s: &[u16], i: usize) -> u32
    ensures { result ≡ get_or s.now i 0 }
{
    u32::from(s.get(i).copied().unwrap_or(0))
}

/// The two elements at q as one number.
fn two_at(s: &[u16], m: usize, q: usize) -> u32
    requires narrow { m ≤ 16 }
    requires near { q < 2 ^ 63 }
    requires small { Small m s.now }
    ensures { result ≡ get_or s.now q 0 * 2 ^ m + get_or s.now (q + 1) 0 }
{
    (word_at(s, q) << m) + word_at(s, q + 1)
}

/// A bit within an element.
#[derive(Clone, Copy)]
struct Place {
    element: usize,
    bit: usize,
}

impl Place {
    /// The place eight bits on.
    fn byte_on(self, m: usize) -> Place
        requires wide { 8 ≤ m }
        requires narrow { m ≤ 16 }
        requires near { self.element < 2 ^ 63 }
        requires within { self.bit < m }
        ensures on { m * result.element + result.bit ≡ m * self.element + self.bit + 8 }
        ensures within { result.bit < m }
    {
        let bit = self.bit + 8;
        if bit < m {
            Place {
                element: self.element,
                bit,
            }
        } else {
            Place {
                element: self.element + 1,
                bit: bit - m,
            }
        }
    }

    /// The eight bits from here on; at most two elements hold them.
    #[tactic(auto, using(crate::proofs::Windows::two_bits))]
    fn byte(self, s: &[u16], m: usize) -> u8
        requires wide { 8 ≤ m }
        requires narrow { m ≤ 16 }
        requires near { self.element < 2 ^ 63 }
        requires within { self.bit < m }
        requires small { Small m s.now }
        ensures { result ≡ value 8 (drop (m * self.element + self.bit) (bits m s.now)) }
    {
        cut(two_at(s, m, self.element), 2 * m - self.bit - 8, 8) as u8
    }
}

/// All elements to bytes.
#[tactic(auto, using(crate::proofs::Packing::packed_of))]
pub fn pack(s: &[u16], m: usize, out: &mut [u8])
    requires wide { 8 ≤ m }
    requires narrow { m ≤ 16 }
    requires small { Small m s.now }
    requires length { length out.old ≡ bytes_for m (length s.now) }
    ensures { out.new ≡ packed m s.now }
{
    let mut place = Place { element: 0, bit: 0 };
    for (j, x) in out.iter_mut().enumerate() {
        *x = place.byte(s, m);
        place = place.byte_on(m);
    }
}

/// Whether each element is below the limit.
fn below(s: &[u16], limit: u32) -> bool
    ensures { Decided result (Below limit s.now) }
{
    for &x in s {
        if limit <= u32::from(x) {
            return false;
        }
    }
    true
}

/// Whether each element is below 2 to the m.
#[tactic(auto, using(crate::proofs::Windows::small_decided, crate::proofs::Windows::one_shl))]
pub fn small(s: &[u16], m: usize) -> bool
    requires { m ≤ 16 }
    ensures { Decided result (Small m s.now) }
{
    below(s, 1 << m)
}

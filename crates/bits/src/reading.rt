//! Reading the bits of a byte string at any place.
ghost use Rattle.std.specs.Prelude.{◌≡◌, ℕ, ◌+◌, ◌*◌, ◌/◌, ◌%◌, ◌<◌, ◌≤◌, ◌^◌, length, get_or};
ghost use Rattle.bits.specs.Bits.{bits_at, elements_at, elements, elements_in, tail_zero};
ghost use Rattle.bits.specs.Steps.{Begun};

/// The byte at i, and 0 past the end.
fn byte_at(s: &[u8], i: usize) -> u32
    ensures value { result ≡ get_or s.now i 0 }
    ensures small { result < 256 }
{
    u32::from(s.get(i).copied().unwrap_or(0))
}

/// The three bytes at q as one number.
fn three_at(s: &[u8], q: usize) -> u32
    requires { q < 2 ^ 63 }
    ensures { result ≡ (get_or s.now q 0 * 256 + get_or s.now (q + 1) 0) * 256 + get_or s.now (q + 2) 0 }
{
    let a = byte_at(s, q);
    let b = byte_at(s, q + 1);
    let c = byte_at(s, q + 2);
    // Kept as sums: `u32::from_be_bytes` of bytes that may be past the end takes a fourth longer an element.
    (a * 256 + b) * 256 + c
}

/// m bits of v, with t bits below them.
#[tactic(auto, using(crate::proofs::Windows::one_shl))]
pub fn cut(v: u32, t: usize, m: usize) -> u16
    requires shift { t < 32 }
    requires narrow { m ≤ 16 }
    ensures bits { result ≡ v / 2 ^ t % 2 ^ m }
    ensures small { result < 2 ^ m }
{
    ((v >> t) % (1 << m)) as u16
}

/// m bits after the first r bits of byte q; at most three bytes hold them. Past the end stand zeros.
#[tactic(auto, using(crate::proofs::Windows::three_bits))]
fn bits_in(s: &[u8], m: usize, q: usize, r: usize) -> u16
    requires narrow { m ≤ 16 }
    requires near { q < 2 ^ 63 }
    requires within { r < 8 }
    ensures bits { result ≡ bits_at m s.now (8 * q + r) }
    ensures small { result < 2 ^ m }
{
    cut(three_at(s, q), 24 - r - m, m)
}

/// m bits at a bit place: the next element of a key that is read element after element.
pub fn bits_at(s: &[u8], m: usize, place: usize) -> u16
    requires { m ≤ 16 }
    ensures bits { result ≡ bits_at m s.now place }
    ensures small { result < 2 ^ m }
{
    bits_in(s, m, place / 8, place % 8)
}

/// Ten bits after the first r bits of byte q, in two bytes.
#[tactic(auto, using(crate::proofs::Windows::pair_bits))]
fn ten_in(s: &[u8], q: usize, r: usize) -> u16
    requires inside { q + 1 < length s.now }
    requires within { r ≤ 6 }
    ensures { result ≡ bits_at 10 s.now (8 * q + r) }
{
    let pair = u16::from_be_bytes([s[q], s[q + 1]]);
    cut(u32::from(pair), 6 - r, 10)
}

/// The four elements of ten bits in the five bytes at q come to the places from i on.
fn four_at(s: &[u8], q: usize, out: &mut [u16], i: usize)
    requires bytes { q + 4 < length s.now }
    requires places { i + 3 < length out.old }
    ensures first { get_or out.new i 0 ≡ bits_at 10 s.now (8 * q) }
    ensures second { get_or out.new (i + 1) 0 ≡ bits_at 10 s.now (8 * q + 10) }
    ensures third { get_or out.new (i + 2) 0 ≡ bits_at 10 s.now (8 * q + 20) }
    ensures fourth { get_or out.new (i + 3) 0 ≡ bits_at 10 s.now (8 * q + 30) }
    ensures kept { (k : ℕ) → k < i → get_or out.new k 0 ≡ get_or out.old k 0 }
{
    out[i] = ten_in(s, q, 0);
    out[i + 1] = ten_in(s, q + 1, 2);
    out[i + 2] = ten_in(s, q + 2, 4);
    out[i + 3] = ten_in(s, q + 3, 6);
}

/// Elements of ten bits from byte q on, four at a time. Answers how many.
#[tactic(auto, using(crate::proofs::Unpacking::begun_none, crate::proofs::Unpacking::begun_four))]
fn fours_at(s: &[u8], q: usize, out: &mut [u16]) -> usize
    requires { 8 * q + 10 * length out.old ≤ 8 * length s.now }
    ensures { Begun 10 s.now (8 * q) result out.new }
{
    let fours = out.len() / 4;
    for j in 0..fours {
        four_at(s, q + 5 * j, out, 4 * j);
    }
    4 * fours
}

/// The elements that can be taken four at a time: those of ten bits, from a whole byte on. Answers how many.
#[tactic(auto, using(crate::proofs::Unpacking::begun_none, crate::proofs::Unpacking::begun_byte, crate::proofs::Unpacking::byte_room))]
fn begin(s: &[u8], m: usize, place: usize, out: &mut [u16]) -> usize
    requires { place + m * length out.old ≤ 8 * length s.now }
    ensures { Begun m s.now place result out.new }
{
    if m != 10 || place % 8 != 0 {
        return 0;
    }
    fours_at(s, place / 8, out)
}

/// Elements from a bit place on, as many as `out` takes. The place is kept as a byte and a bit in it, since 8 times a length need not fit
/// a usize.
#[tactic(auto, using(crate::proofs::Packing::elements_at_of))]
pub fn unpack_at(s: &[u8], m: usize, place: usize, out: &mut [u16])
    requires narrow { m ≤ 16 }
    requires inside { place + m * length out.old ≤ 8 * length s.now }
    ensures { out.new ≡ elements_at (length out.old) m s.now place }
{
    let begun = begin(s, m, place, out);
    let mut byte = place / 8 + begun / 4 * 5;
    let mut bit = place % 8;
    for i in begun..out.len() {
        out[i] = bits_in(s, m, byte, bit);
        byte += (bit + m) / 8;
        bit = (bit + m) % 8;
    }
}

/// All whole elements.
#[tactic(auto, using(crate::proofs::Packing::all_elements))]
pub fn unpack(s: &[u8], m: usize, out: &mut [u16])
    requires narrow { m ≤ 16 }
    requires length { length out.old ≡ elements_in m (length s.now) }
    ensures { out.new ≡ elements m s.now }
{
    unpack_at(s, m, 0, out);
}

/// Whether the bits after the last whole element are zero.
#[tactic(auto, using(crate::proofs::Windows::tail_is))]
pub fn tail_zero(s: &[u8], m: usize) -> bool
    requires some { 0 < m }
    requires narrow { m ≤ 16 }
    ensures { result ≡ tail_zero m s.now }
{
    let t = 8 * (s.len() % m) % m;
    let q = s.len() - t.div_ceil(8);
    bits_in(s, t, q, (8 - t % 8) % 8) == 0
}

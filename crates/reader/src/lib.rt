//! Keys are read element after element by a reader that remembers its bytes and its bit place.
//!
//! `element` and `elements` have plain parameters and use a reader inside; whoever calls those two sees no reader.
#![tactic(auto)]

ghost use Rattle.std.specs.Prelude.{◌≡◌, ◌+◌, ◌*◌, ◌<◌, ◌≤◌, ◌^◌, length};
ghost use Rattle.bits.specs.Bits.{bits_at, elements_at};
ghost use Rattle.reader.specs.Places.{past};

#[derive(Clone, Copy)]
pub struct Reader<'a> {
    pub bytes: &'a [u8],
    pub bit: usize,
}

impl<'a> Reader<'a> {
    /// A reader at a bit place.
    pub fn at(bytes: &'a [u8], bit: usize) -> Reader<'a>
        ensures bytes { result.bytes ≡ bytes.entry }
        ensures bit { result.bit ≡ bit }
    {
        Reader { bytes, bit }
    }

    /// The next element of m bits.
    pub fn next(&mut self, m: usize) -> u16
        requires narrow { m ≤ 16 }
        requires near { self.old.bit + m < 2 ^ 64 }
        ensures value { result ≡ bits_at m self.old.bytes.now self.old.bit }
        ensures small { result < 2 ^ m }
        ensures rest { self.new ≡ past self.old m }
    {
        let value = bits::bits_at(self.bytes, m, self.bit);
        self.bit += m;
        value
    }

    /// Fills `out` with the next elements of m bits.
    pub fn fill(&mut self, m: usize, out: &mut [u16])
        requires narrow { m ≤ 16 }
        requires inside { self.old.bit + m * length out.old ≤ 8 * length self.old.bytes.now }
        requires near { self.old.bit + m * length out.old < 2 ^ 64 }
        ensures elements { out.new ≡ elements_at (length out.old) m self.old.bytes.now self.old.bit }
        ensures rest { self.new ≡ past self.old (m * length out.old) }
    {
        bits::unpack_at(self.bytes, m, self.bit, out);
        self.bit += m * out.len();
    }
}

/// The element of m bits at a bit place.
pub fn element(bytes: &[u8], m: usize, bit: usize) -> u16
    requires narrow { m ≤ 16 }
    requires near { bit + m < 2 ^ 64 }
    ensures value { result ≡ bits_at m bytes.now bit }
    ensures small { result < 2 ^ m }
{
    Reader::at(bytes, bit).next(m)
}

/// Elements from a bit place on, as many as `out` takes; answers the place after them.
pub fn elements(bytes: &[u8], m: usize, bit: usize, out: &mut [u16]) -> usize
    requires narrow { m ≤ 16 }
    requires inside { bit + m * length out.old ≤ 8 * length bytes.now }
    requires near { bit + m * length out.old < 2 ^ 64 }
    ensures place { result ≡ bit + m * length out.old }
    ensures elements { out.new ≡ elements_at (length out.old) m bytes.now bit }
{
    let mut reader = Reader::at(bytes, bit);
    reader.fill(m, out);
    reader.bit
}

//! Lists that are read entry by entry where they stand: a slice, and the 16-bit numbers of a byte string.
ghost use Rattle.std.specs.Prelude.{◌≡◌, List, ℕ, ◌<◌, length, get_or};
ghost use Rattle.bits.specs.Numbers.{numbers16};

/// A list that lends its entries.
pub(crate) trait Entries: Copy {
    ghost list: { Self → List ℕ };

    /// How many entries there are.
    fn count(self) -> usize
        ensures { result ≡ length (list self) };

    /// Entry i.
    fn entry(self, i: usize) -> usize
        requires { i < length (list self) }
        ensures { result ≡ get_or (list self) i 0 };
}

impl<'a> Entries for &'a [u16] {
    ghost list = { λ p. p.now };

    fn count(self) -> usize {
        self.len()
    }

    fn entry(self, i: usize) -> usize {
        usize::from(self[i])
    }
}

/// The numbers of a byte string, the high byte of each first.
#[derive(Clone, Copy)]
pub(crate) struct Numbers<'a> {
    pub bytes: &'a [u8],
}

impl<'a> Entries for Numbers<'a> {
    ghost list = { λ p. numbers16 p.bytes.now };

    #[tactic(auto, using(crate::proofs::Inverting::reading))]
    fn count(self) -> usize {
        self.bytes.len() / 2
    }

    #[tactic(auto, using(crate::proofs::Inverting::reading))]
    fn entry(self, i: usize) -> usize {
        bits::number_at(self.bytes, i)
    }
}

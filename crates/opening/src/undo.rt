//! From the elements received to the code word near them.
ghost use Rattle.std.specs.Prelude.{◌≡◌, ℕ, List, ◌+◌, ◌*◌, ◌<◌, ◌≤◌, length, get_or, OnOk, IfErr};
ghost use Rattle.gf.specs.Ten.{ten};
ghost use Rattle.code.specs.Area.{decoding_room};
ghost use Rattle.code.specs.Decoding.{Near};

use crate::Failure;
use crate::prepare::PreparedKey;
use sets::Set;

impl<'a, 'w> PreparedKey<'a, 'w> {
    ghost use Rattle.scheme.specs.Opening.{kept, undone};
    ghost use Rattle.opening.specs.Held.{held};

    /// The element received that undoing P2 brings to place i.
    fn received(&self, received: &[u16], i: usize) -> u16
        requires received { length received.now ≡ self.now.key.parameters.set.n + self.now.key.parameters.set.w }
        requires place { i < self.now.key.parameters.set.n + self.now.key.parameters.set.w }
        ensures { result ≡ get_or received.now (get_or (held self.now.key).q2 i 0) 0 }
    {
        received[self.key.second(i)]
    }

    /// The element that is kept at place j: of a pair each times its element of the stored column.
    fn kept(&self, received: &[u16], j: usize) -> u16
        requires received { length received.now ≡ self.now.key.parameters.set.n + self.now.key.parameters.set.w }
        requires place { j < self.now.key.parameters.set.n }
        ensures { result ≡ kept self.now.key.parameters.set (held self.now.key) received.now j }
    {
        let Set { n, w, .. } = self.key.parameters.set;
        let unmixed = n - w;
        if j < unmixed {
            return self.received(received, j);
        }
        let i = 2 * (j - unmixed);
        let upper = gf::product(self.received(received, unmixed + i), self.key.column(i));
        let lower = gf::product(
            self.received(received, unmixed + i + 1),
            self.key.column(i + 1),
        );
        upper ^ lower
    }

    /// The word that is decoded.
    #[tactic(auto, using(crate::proofs::Undoing::undone_is))]
    pub(crate) fn undo(&self, received: &[u16], word: &mut [u16])
        requires received { length received.now ≡ self.now.key.parameters.set.n + self.now.key.parameters.set.w }
        requires word { length word.old ≡ self.now.key.parameters.set.n }
        ensures { word.new ≡ undone self.now.key.parameters.set (held self.now.key) received.now }
    {
        for (j, x) in word.iter_mut().enumerate() {
            *x = gf::product(self.key.inverse(j), self.kept(received, self.key.first(j)));
        }
    }
    /// The code word within t places of what was received, when what the key does is undone.
    pub(crate) fn receive(
        &self,
        received: &[u16],
        word: &mut [u16],
        work: &mut [u16],
    ) -> Result<(), Failure>
        requires received { length received.now ≡ self.now.key.parameters.set.n + self.now.key.parameters.set.w }
        requires word { length word.old ≡ self.now.key.parameters.set.n }
        requires room { decoding_room self.now.key.parameters.set.n self.now.key.parameters.set.t ≤ length work.old }
        ensures near { OnOk result (Near ten self.now.key.parameters.set.n self.now.key.parameters.set.t (undone self.now.key.parameters.set (held self.now.key) received.now) word.new) }
        ensures none { IfErr result (λ e. (e ≡ Failure.NotOpened) × ((c : List ℕ) → Near ten self.now.key.parameters.set.n self.now.key.parameters.set.t (undone self.now.key.parameters.set (held self.now.key) received.now) c → ⊥)) }
    {
        self.undo(received, word);
        if code::decode(word, self.key.parameters.set.t, work).is_err() {
            return Err(Failure::NotOpened);
        }
        Ok(())
    }
}

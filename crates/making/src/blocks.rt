//! Two-by-two blocks: searched among the elements, and inverted.
ghost use Rattle.std.specs.Prelude.{◌≡◌, ◌+◌, ◌*◌, ◌≤◌, ◌<◌, length, [], ◌∷◌, get_or, IfSome, IfNone, OnOk, OnErr, IfErr};
ghost use Rattle.gf.specs.Field.{mul, inverse};
ghost use Rattle.gf.specs.Ten.{ten};
ghost use Rattle.scheme.specs.Setup.{det, found, none, blocks as blocks_of, block_elements, inverse_columns};

use crate::random::Random;
use scheme::Refusal;

/// The block [a, b; c, d].
#[derive(Clone, Copy)]
pub struct Block {
    pub a: u16,
    pub b: u16,
    pub c: u16,
    pub d: u16,
}

impl Block {
    /// Block i of those that stand one after the other.
    pub fn at(blocks: &[u16], i: usize) -> Block
        requires { 4 * i + 4 ≤ length blocks.now }
        ensures a { result.a ≡ get_or blocks.now (4 * i) 0 }
        ensures b { result.b ≡ get_or blocks.now (4 * i + 1) 0 }
        ensures c { result.c ≡ get_or blocks.now (4 * i + 2) 0 }
        ensures d { result.d ≡ get_or blocks.now (4 * i + 3) 0 }
    {
        Block {
            a: blocks[4 * i],
            b: blocks[4 * i + 1],
            c: blocks[4 * i + 2],
            d: blocks[4 * i + 3],
        }
    }

    fn determinant(self) -> u16
        ensures { result ≡ det ten self.a self.b self.c self.d }
    {
        gf::product(self.a, self.d) ^ gf::product(self.b, self.c)
    }

    /// The first column of the inverse, which is [d, b; c, a] over the determinant: minus is plus.
    pub fn first_column_of_inverse(self) -> [u16; 2]
        ensures { let f = inverse ten (det ten self.a self.b self.c self.d) in result ≡ mul ten self.d f ∷ mul ten self.c f ∷ [] }
    {
        let f = gf::reciprocal(self.determinant());
        [gf::product(self.d, f), gf::product(self.c, f)]
    }

    /// The four numbers, stored.
    fn store(self, run: &mut [u16])
        requires { length run.old ≡ 4 }
        ensures { run.new ≡ self.a ∷ self.b ∷ self.c ∷ self.d ∷ [] }
    {
        run.copy_from_slice(&[self.a, self.b, self.c, self.d]);
    }
}

ghost use Rattle.making.specs.Blocks.{FirstBlock, NoBlock};

/// The first four elements in a row with a determinant, as a block, and the elements behind them.
fn next_block(elements: &[u16]) -> Option<(Block, &[u16])>
    ensures found { IfSome result (λ r. FirstBlock elements.now r.0 r.1.now) }
    ensures none { IfNone result (NoBlock elements.now) }
{
    let mut rest = elements;
    while let [a, b, c, d, after @ ..] = rest {
        let block = Block {
            a: *a,
            b: *b,
            c: *c,
            d: *d,
        };
        if block.determinant() != 0 {
            return Some((block, after));
        }
        rest = &rest[1..];
    }
    None
}

/// Searches w blocks with a determinant among the elements, and stores them.
fn search(elements: &[u16], w: usize, blocks: &mut [u16]) -> Result<(), Refusal>
    requires { length blocks.old ≡ 4 * w }
    ensures found { OnOk result (blocks_of ten w elements.now ≡ found blocks.new) }
    ensures none { OnErr result (blocks_of ten w elements.now ≡ none) }
    ensures refusal { IfErr result (λ e. e ≡ Refusal.FewElements) }
{
    let mut rest = elements;
    for i in 0..w {
        let Some((block, after)) = next_block(rest) else {
            return Err(Refusal::FewElements);
        };
        block.store(&mut blocks[4 * i..4 * i + 4]);
        rest = after;
    }
    Ok(())
}

/// The blocks, from the non-zero ones of elements n + 5 to n + 4w + 24, which are kept in `elements`.
pub fn draw_blocks(random: &Random, elements: &mut [u16], blocks: &mut [u16]) -> Result<(), Refusal>
    requires elements { length elements.old ≡ 4 * random.now.parameters.set.w + 20 }
    requires blocks { length blocks.old ≡ 4 * random.now.parameters.set.w }
    ensures found { let s = random.now.parameters.set in OnOk result (blocks_of ten s.w (block_elements s random.now.bytes.now) ≡ found blocks.new) }
    ensures none { let s = random.now.parameters.set in OnErr result (blocks_of ten s.w (block_elements s random.now.bytes.now) ≡ none) }
    ensures refusal { IfErr result (λ e. e ≡ Refusal.FewElements) }
{
    let set = random.parameters.set;
    let count = random.keep_non_zero(set.n + 5, 4 * set.w + 20, elements);
    search(&elements[..count], set.w, blocks)
}

/// The first column of the inverse of each block, upper then lower.
pub fn put_columns(blocks: &[u16], w: usize, columns: &mut [u16])
    requires blocks { length blocks.now ≡ 4 * w }
    requires columns { length columns.old ≡ 2 * w }
    ensures { columns.new ≡ inverse_columns ten blocks.now }
{
    for i in 0..w {
        let column = Block::at(blocks, i).first_column_of_inverse();
        columns[2 * i..2 * i + 2].copy_from_slice(&column);
    }
}

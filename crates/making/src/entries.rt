//! The matrix before its reduction, entry by entry, and its reduction.
//!
//! A row's coefficients stand in lent room that each row writes anew, so they go beside `Entries` and are no field of it.
ghost use Rattle.std.specs.Prelude.{◌≡◌, ℕ, ◌+◌, ◌-◌, ◌*◌, ◌≤◌, ◌<◌, length, get_or, OnOk, OnErr, IfErr};
ghost use Rattle.gf.specs.Ten.{ten};
ghost use Rattle.code.specs.Generator.{generator as generator_of};
ghost use Rattle.scheme.specs.Setup.{multipliers as multipliers_of, permutation1};

use crate::random::Random;
use scheme::Refusal;

/// What the entries of the matrix are made of.
#[derive(Clone, Copy)]
pub struct Entries<'r, 'w> {
    pub random: Random<'r>,
    pub multipliers: &'w [u16],
    pub blocks: &'w [u16],
    pub first: &'w [u16],
    pub second: &'w [u16],
    pub generator: &'w [u16],
    pub ghost multipliers_len: { length multipliers.now ≡ random.parameters.set.n },
    pub ghost multipliers_are: { multipliers.now ≡ multipliers_of random.parameters.set random.bytes.now },
    pub ghost blocks_len: { length blocks.now ≡ 4 * random.parameters.set.w },
    pub ghost first_len: { length first.now ≡ random.parameters.set.n },
    pub ghost first_low: { (c : ℕ) → c < random.parameters.set.n → get_or first.now c 0 < random.parameters.set.n },
    pub ghost first_is: { first.now ≡ permutation1 random.parameters.set random.bytes.now },
    pub ghost second_len: { length second.now ≡ random.parameters.set.n + random.parameters.set.w },
    pub ghost second_low: { (j : ℕ) → j < random.parameters.set.n + random.parameters.set.w → get_or second.now j 0 < random.parameters.set.n + random.parameters.set.w },
    pub ghost generator_len: { length generator.now ≡ random.parameters.set.n - random.parameters.set.k + 1 },
    pub ghost generator_is: { generator.now ≡ generator_of ten (random.parameters.set.n - random.parameters.set.k) },
}

impl<'r, 'w> Entries<'r, 'w> {
    ghost use Rattle.lists.specs.Loops.{tab};
    ghost use Rattle.scheme.specs.Matrices.{listed};
    ghost use Rattle.making.specs.Entered.{set_in, columns_in, coefficients_in, scaled_in, permuted_in, mixed_in, matrix_in, reduction_in};

    /// Entry (i, j) of the code's generator matrix, whose rows are shifts of the generator, times the multiplier of column j.
    fn scaled(&self, coefficients: &[u16], i: usize, j: usize) -> u16
        requires coefficients { coefficients.now ≡ coefficients_in self.now i }
        requires column { j < (set_in self.now).n }
        ensures { result ≡ scaled_in self.now i j }
    {
        if j < i {
            return 0;
        }
        if coefficients.len() <= j - i {
            return 0;
        }
        coefficients[j - i]
    }

    /// The same with the columns permuted by the first permutation.
    fn permuted(&self, coefficients: &[u16], i: usize, c: usize) -> u16
        requires coefficients { coefficients.now ≡ coefficients_in self.now i }
        requires column { c < (set_in self.now).n }
        ensures { result ≡ permuted_in self.now i c }
    {
        self.scaled(coefficients, i, self.first[c] as usize)
    }

    /// A column of a pair, after a column of random elements was joined to column n - w + pair and both were multiplied by the pair's block.
    fn mixed(&self, coefficients: &[u16], i: usize, pair: usize, side: usize) -> u16
        requires coefficients { coefficients.now ≡ coefficients_in self.now i }
        requires row { i < (set_in self.now).k }
        requires pair { pair < (set_in self.now).w }
        requires side { side < 2 }
        ensures { result ≡ mixed_in self.now i pair side }
    {
        let set = self.random.parameters.set;
        let x = self.permuted(coefficients, i, set.n - set.w + pair);
        let y = self
            .random
            .element(set.n + 4 * set.w + 25 + pair * set.k + i);
        gf::product(x, self.blocks[4 * pair + side])
            ^ gf::product(y, self.blocks[4 * pair + 2 + side])
    }

    /// Entry (i, j) of the matrix that is reduced.
    fn entry(&self, coefficients: &[u16], i: usize, j: usize) -> u16
        requires coefficients { coefficients.now ≡ coefficients_in self.now i }
        requires row { i < (set_in self.now).k }
        requires column { j < columns_in self.now }
        ensures { result ≡ matrix_in self.now i j }
    {
        let c = self.second[j] as usize;
        let d = self.random.parameters.set.n - self.random.parameters.set.w;
        if c < d {
            return self.permuted(coefficients, i, c);
        }
        self.mixed(coefficients, i, (c - d) / 2, (c - d) % 2)
    }

    /// The generator's coefficients times the multipliers of the columns where row i has them.
    fn scale_generator(&self, i: usize, coefficients: &mut [u16])
        requires row { i < (set_in self.now).k }
        requires coefficients { length coefficients.old ≡ length self.now.generator.now }
        ensures { coefficients.new ≡ coefficients_in self.now i }
    {
        coefficients.copy_from_slice(self.generator);
        gf::multiply(coefficients, &self.multipliers[i..i + self.generator.len()]);
    }

    /// Row i.
    fn fill_row(&self, i: usize, coefficients: &mut [u16], row: &mut [u16])
        requires row { i < (set_in self.now).k }
        requires coefficients { length coefficients.old ≡ length self.now.generator.now }
        requires columns { length row.old ≡ columns_in self.now }
        ensures { row.new ≡ tab (columns_in self.now) (matrix_in self.now i) }
    {
        self.scale_generator(i, coefficients);
        for (j, x) in row.iter_mut().enumerate() {
            *x = self.entry(coefficients, i, j);
        }
    }

    /// All rows.
    fn fill(&self, coefficients: &mut [u16], matrix: &mut [u16])
        requires coefficients { length coefficients.old ≡ length self.now.generator.now }
        requires matrix { length matrix.old ≡ (set_in self.now).k * columns_in self.now }
        ensures { matrix.new ≡ listed (set_in self.now).k (columns_in self.now) (matrix_in self.now) }
    {
        let u = self.random.parameters.set.n + self.random.parameters.set.w;
        for i in 0..self.random.parameters.set.k {
            self.fill_row(i, coefficients, &mut matrix[i * u..i * u + u]);
        }
    }

    /// Fills the matrix and reduces it, if its first k columns are independent; by way of room for a row's coefficients.
    pub fn reduce(&self, coefficients: &mut [u16], matrix: &mut [u16]) -> Result<(), Refusal>
        requires coefficients { length coefficients.old ≡ length self.now.generator.now }
        requires matrix { length matrix.old ≡ (set_in self.now).k * columns_in self.now }
        ensures reduced { OnOk result (matrix.new ≡ (reduction_in self.now).mat) }
        ensures full { OnOk result ((set_in self.now).k ≤ (reduction_in self.now).cols) }
        ensures few { OnErr result ((reduction_in self.now).cols < (set_in self.now).k) }
        ensures refusal { IfErr result (λ e. e ≡ Refusal.Dependent) }
    {
        let set = self.random.parameters.set;
        self.fill(coefficients, matrix);
        let done = linear::eliminate(matrix, set.k, set.n + set.w, set.k);
        if done.cols < set.k {
            return Err(Refusal::Dependent);
        }
        Ok(())
    }
}

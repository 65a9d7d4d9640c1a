//! The work area of setup, cut into its parts.
ghost use Rattle.std.specs.Prelude.{◌≡◌, ◌+◌, ◌-◌, ◌*◌, ◌≤◌, length};
ghost use Rattle.making.specs.Sizes.{run_size};

use sets::ParameterSet;

/// The parts of the work area.
#[derive(Drop)]
pub struct Rooms<'w> {
    pub parameters: ParameterSet,
    pub matrix: &'w mut [u16],
    /// what the matrix's entries are made of
    pub multipliers: &'w mut [u16],
    pub blocks: &'w mut [u16],
    pub first: &'w mut [u16],
    pub second: &'w mut [u16],
    pub generator: &'w mut [u16],
    /// the elements of the block search, then the coefficients of a row, last the run of elements that the private key packs
    pub rest: &'w mut [u16],
    pub ghost matrix_len: { length matrix.now ≡ parameters.set.k * (parameters.set.n + parameters.set.w) },
    pub ghost multipliers_len: { length multipliers.now ≡ parameters.set.n },
    pub ghost blocks_len: { length blocks.now ≡ 4 * parameters.set.w },
    pub ghost first_len: { length first.now ≡ parameters.set.n },
    pub ghost second_len: { length second.now ≡ parameters.set.n + parameters.set.w },
    pub ghost generator_len: { length generator.now ≡ parameters.set.n - parameters.set.k + 1 },
    pub ghost search_fits: { 4 * parameters.set.w + 20 ≤ length rest.now },
    pub ghost run_fits: { run_size parameters.set ≤ length rest.now },
}

impl<'w> Rooms<'w> {
    /// The parts of a work area of the set's length.
    #[tactic(auto, using(crate::proofs::SetSizes::run_fits, crate::proofs::SetSizes::search_fits))]
    pub fn cut(parameters: ParameterSet, work: &'w mut [u16]) -> Rooms<'w>
        requires { length work.old ≡ parameters.set.work }
        ensures { result.parameters.set ≡ parameters.set }
    {
        let set = parameters.set;
        let (matrix, rest) = work.split_at_mut(set.k * (set.n + set.w));
        let (multipliers, rest) = rest.split_at_mut(set.n);
        let (blocks, rest) = rest.split_at_mut(4 * set.w);
        let (first, rest) = rest.split_at_mut(set.n);
        let (second, rest) = rest.split_at_mut(set.n + set.w);
        let (generator, rest) = rest.split_at_mut(set.n - set.k + 1);
        Rooms {
            parameters,
            matrix,
            multipliers,
            blocks,
            first,
            second,
            generator,
            rest,
        }
    }
}

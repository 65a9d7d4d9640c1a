//! Both keys as bytes.
ghost use Rattle.std.specs.Prelude.{◌≡◌, ◌+◌, ◌-◌, ◌*◌, ◌≤◌, ◌<◌, length, take, ◌∷◌, ◌++◌};
ghost use Rattle.gf.specs.Field.{width};
ghost use Rattle.gf.specs.Ten.{ten};
ghost use Rattle.bits.specs.Bits.{Small, packed as packed_bytes};
ghost use Rattle.bits.specs.Numbers.{bytes16};
ghost use Rattle.perm.specs.Perm.{Perm, Places, inverted};
ghost use Rattle.sets.specs.Valid.{key_elements};
ghost use Rattle.linear.specs.Matrix.{entry};
ghost use Rattle.scheme.specs.Lists.{inverse_of};
ghost use Rattle.scheme.specs.Matrices.{listed};
ghost use Rattle.scheme.specs.Keys.{public_key};
ghost use Rattle.scheme.specs.Setup.{inverse_columns, inverses as inverses_of, right_part};
ghost use Rattle.making.specs.Sizes.{run_size};

use crate::blocks::put_columns;
use sets::ParameterSet;

/// The inverses of n elements.
fn put_inverses(elements: &[u16], inverses: &mut [u16])
    requires { length inverses.old ≡ length elements.now }
    ensures { inverses.new ≡ inverses_of ten elements.now }
{
    for (i, x) in inverses.iter_mut().enumerate() {
        *x = gf::reciprocal(elements[i]);
    }
}

/// The columns from k on of the k rows of u, row after row.
fn put_right(matrix: &[u16], k: usize, u: usize, ge: &mut [u16])
    requires matrix { length matrix.now ≡ k * u }
    requires columns { k ≤ u }
    requires ge { length ge.old ≡ k * (u - k) }
    ensures { ge.new ≡ listed k (u - k) (λ i j. entry u matrix.now i (k + j)) }
{
    let c = u - k;
    for i in 0..k {
        ge[i * c..i * c + c].copy_from_slice(&matrix[i * u + k..i * u + u]);
    }
}

/// The run of elements that the private key packs: block columns, inverses of the multipliers, GE.
pub fn put_run(
    parameters: ParameterSet,
    blocks: &[u16],
    multipliers: &[u16],
    matrix: &[u16],
    run: &mut [u16],
)
    requires blocks { length blocks.now ≡ 4 * parameters.set.w }
    requires multipliers { length multipliers.now ≡ parameters.set.n }
    requires matrix { length matrix.now ≡ parameters.set.k * (parameters.set.n + parameters.set.w) }
    requires run { length run.old ≡ run_size parameters.set }
    ensures { run.new ≡ inverse_columns ten blocks.now ++ (inverses_of ten multipliers.now ++ right_part parameters.set matrix.now) }
{
    let set = parameters.set;
    let (columns, rest) = run.split_at_mut(2 * set.w);
    let (inverses, ge) = rest.split_at_mut(set.n);
    put_columns(blocks, set.w, columns);
    put_inverses(multipliers, inverses);
    put_right(matrix, set.k, set.n + set.w, ge);
}

/// The public key: set byte, GE.
pub fn put_public(parameters: ParameterSet, ge: &[u16], public: &mut [u8])
    requires byte { parameters.set.byte < 256 }
    requires ge { length ge.now ≡ key_elements parameters.set }
    requires small { Small parameters.set.m ge.now }
    requires public { length public.old ≡ parameters.set.public }
    ensures { public.new ≡ public_key parameters.set ge.now }
{
    let (byte, packed) = public.split_at_mut(1);
    byte[0] = parameters.set.byte as u8;
    bits::pack(ge, parameters.set.m, packed);
}

/// The inverse of a permutation, whatever stood there. `perm::invert` would also test the entries, which are secret.
#[tactic(auto, using(lists::proofs::Loops::turning))]
fn invert(order: &[u16], inverse: &mut [u16])
    requires permutation { Perm order.now }
    requires places { length order.now ≤ 65536 }
    requires inverse { length inverse.old ≡ length order.now }
    ensures { inverse.new ≡ inverse_of order.now }
{
    for (i, &x) in order.iter().enumerate() {
        inverse[usize::from(x)] = i as u16;
    }
}

/// That inverse as 16-bit numbers, by way of the room.
fn put_inverse(order: &[u16], room: &mut [u16], list: &mut [u8])
    requires permutation { Perm order.now }
    requires places { length order.now ≤ 65536 }
    requires room { length order.now ≤ length room.old }
    requires list { length list.old ≡ 2 * length order.now }
    ensures { list.new ≡ bytes16 (inverse_of order.now) }
{
    let inverse = &mut room[..order.len()];
    invert(order, inverse);
    bits::put_numbers(inverse, list);
}

/// The private key: set byte, the inverses of both permutations, the run of elements.
pub fn put_private(
    parameters: ParameterSet,
    first: &[u16],
    second: &[u16],
    run: &[u16],
    room: &mut [u16],
    private: &mut [u8],
)
    requires byte { parameters.set.byte < 256 }
    requires first { Perm first.now }
    requires first_len { length first.now ≡ parameters.set.n }
    requires second { Perm second.now }
    requires second_len { length second.now ≡ parameters.set.n + parameters.set.w }
    requires run { length run.now ≡ run_size parameters.set }
    requires small { Small parameters.set.m run.now }
    requires room { parameters.set.n + parameters.set.w ≤ length room.old }
    requires private { length private.old ≡ parameters.set.private }
    ensures { private.new ≡ parameters.set.byte ∷ (bytes16 (inverse_of first.now) ++ (bytes16 (inverse_of second.now) ++ packed_bytes parameters.set.m run.now)) }
{
    let set = parameters.set;
    let (byte, rest) = private.split_at_mut(1);
    let (first_list, rest) = rest.split_at_mut(2 * set.n);
    let (second_list, elements) = rest.split_at_mut(2 * (set.n + set.w));
    byte[0] = set.byte as u8;
    put_inverse(first, room, first_list);
    put_inverse(second, room, second_list);
    bits::pack(run, set.m, elements);
}

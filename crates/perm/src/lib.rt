//! Permutations of places: the shuffle of the RLCE-KEM specification of September 14, 2017, section 7.8, and the inverse of a permutation.
//!
//! `shuffle_call` and `invert_call` take any input. The functions they stand on, which the layers above use, say what they require.
//
// That a list has at most 65536 entries stays a clause: the lists are lent slices, and a type would be made and taken apart at each call.
#![tactic(auto)]

mod entries;
mod inverse;
mod swaps;
mod window;

ghost use Rattle.perm.specs.Answer.{Shuffled, Inverted};

pub use inverse::{invert, invert_numbers, is_permutation};
use lists::Refused;
pub use swaps::shuffle;

/// Shuffles 0, 1, .. by the 16-bit numbers in the bytes. Refused, with nothing written: the list's length u is not from 1 to 65536, the
/// bytes are odd in number, or they hold more than u - 1 numbers.
pub fn shuffle_call(bytes: &[u8], list: &mut [u16]) -> Result<(), Refused>
    ensures { Shuffled bytes.now list.old result list.new }
{
    let u = list.len();
    if !(1..=65536).contains(&u) || bytes.len() % 2 != 0 || u - 1 < bytes.len() / 2 {
        return Err(Refused);
    }
    shuffle(bytes, list);
    Ok(())
}

/// The inverse of a permutation. Refused, with nothing written: the list is none, or the inverse is not as long.
#[tactic(auto, using(crate::proofs::Inverting::inverting))]
pub fn invert_call(list: &[u16], inverse: &mut [u16]) -> Result<(), Refused>
    ensures { Inverted list.now inverse.old result inverse.new }
{
    if inverse.len() != list.len() || !is_permutation(list) {
        return Err(Refused);
    }
    inverse::write(list, inverse);
    Ok(())
}

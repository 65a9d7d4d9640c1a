//! The Reed-Solomon code: decoding to the one code word within t places, and the generator.
#![tactic(auto)]

ghost use Rattle.std.specs.Prelude.{◌≡◌, ℕ, ◌+◌, ◌-◌, ◌*◌, ◌≤◌, ◌<◌, length, get_or};
ghost use Rattle.gf.specs.Field.{size, order, alpha};
ghost use Rattle.gf.specs.Ten.{ten};
ghost use Rattle.code.specs.Area.{decoding_room};
ghost use Rattle.code.specs.Decoding.{Decodes};
ghost use Rattle.code.specs.Generator.{generator};
ghost use Rattle.code.specs.Stages.{Powers, Summed, Suspects, Values};

use places::find_places;
use rooms::Rooms;
use sums::{all_zero, power_sums};
use values::{add_values, find_values};

mod places;
mod rooms;
mod root;
mod runs;
mod settle;
mod sums;
mod values;

/// There is no code word near enough.
#[derive(Clone, Copy, Debug, PartialEq, Eq)]
pub struct Undecodable;

// Adds the values to the word at the places, and what they bring to its power sums. If that gives no code word, the word is as it was.
fn apply(
    word: &mut [u16],
    sums: &mut [u16],
    places: &[u16],
    points: &[u16],
    values: &[u16],
    products: &mut [u16],
) -> Result<(), Undecodable>
    requires summed { Summed ten (length word.old) sums.old word.old }
    requires suspects { Suspects ten (length word.old) sums.old places.now }
    requires values { Values ten (length word.old) sums.old places.now values.now }
    requires points { (k : ℕ) → k < length places.now → get_or points.now k 0 ≡ alpha ten (get_or places.now k 0) }
    requires as_many_points { length points.now ≡ length places.now }
    requires as_many_values { length values.now ≡ length places.now }
    requires as_many_products { length products.old ≡ length places.now }
    ensures { (t : ℕ) → t + t ≡ length sums.old → Decodes ten (length word.old) t word.old result word.new }
{
    add_values(word, places, values);
    runs::copy(values, products);
    settle::add_sums(sums, points, products);
    if all_zero(sums) {
        return Ok(());
    }
    add_values(word, places, values);
    Err(Undecodable)
}

// Corrects the word at the places that may be wrong.
fn correct(
    word: &mut [u16],
    sums: &mut [u16],
    places: &[u16],
    points: &[u16],
    matrix: &mut [u16],
    there: &mut [u16],
    products: &mut [u16],
    values: &mut [u16],
) -> Result<(), Undecodable>
    requires summed { Summed ten (length word.old) sums.old word.old }
    requires suspects { Suspects ten (length word.old) sums.old places.now }
    requires points { Powers ten 0 points.now }
    requires all_points { length points.now ≡ length word.old }
    requires order { length points.now ≤ order ten }
    requires half { length sums.old ≤ length points.now }
    requires matrix { length places.now * (length places.now + 1) ≤ length matrix.old }
    requires there { length there.old ≡ length places.now }
    requires products { length products.old ≡ length places.now }
    requires values { length values.old ≡ length places.now + 1 }
    ensures { (t : ℕ) → t + t ≡ length sums.old → Decodes ten (length word.old) t word.old result word.new }
{
    find_values(sums, places, points, matrix, there, products, values);
    apply(word, sums, places, there, &values[..places.len()], products)
}

/// Decodes a word in place: it becomes the code word within t places, where there is one, and else stays as it was. Of
/// the work area `decoding_room` numbers are used, whatever they hold.
pub fn decode(word: &mut [u16], t: usize, work: &mut [u16]) -> Result<(), Undecodable>
    requires half { t + t ≤ length word.old }
    requires order { length word.old ≤ order ten }
    requires small { (i : ℕ) → i < length word.old → get_or word.old i 0 < size ten }
    requires room { decoding_room (length word.old) t ≤ length work.old }
    ensures { Decodes ten (length word.old) t word.old result word.new }
{
    let Rooms {
        matrix,
        sums,
        powers,
        locator,
        values,
        points,
        places,
    } = Rooms::cut(word.len(), t, work);
    power_sums(word, 1, sums, powers);
    if all_zero(sums) {
        return Ok(());
    }
    let r = find_places(sums, matrix, locator, values, points, places);
    let (there, products) = powers.split_at_mut(t);
    correct(
        word,
        sums,
        &places[..r],
        points,
        matrix,
        &mut there[..r],
        &mut products[..r],
        &mut locator[..r + 1],
    )
}

/// Writes the coefficients of the product of (x - α^i), i = 1..s, into s + 1 numbers.
pub fn generator(out: &mut [u16])
    requires some { 0 < length out.old }
    ensures { out.new ≡ generator ten (length out.old - 1) }
{
    out.fill(0);
    out[0] = 1;
    for i in 1..out.len() {
        root::times_root(out, gf::power(i));
    }
}

//! The values that the word is wrong by: the solution of the equations of the power sums at the places found.
ghost use Rattle.std.specs.Prelude.{◌≡◌, ℕ, ◌+◌, ◌*◌, ◌≤◌, ◌<◌, length, get_or};
ghost use Rattle.gf.specs.Field.{order, alpha};
ghost use Rattle.gf.specs.Ten.{ten};
ghost use Rattle.code.specs.Stages.{Elements, Powers, PowerRows, Suspects, Values, Added};

use crate::places::put_equation;
use crate::runs::copy;

// The numbers at the places.
fn gather(from: &[u16], places: &[u16], to: &mut [u16])
    requires same { length to.old ≡ length places.now }
    requires below { (k : ℕ) → k < length places.now → get_or places.now k 0 < length from.now }
    ensures { (k : ℕ) → k < length places.now → get_or to.new k 0 ≡ get_or from.now (get_or places.now k 0) 0 }
{
    for k in 0..places.len() {
        to[k] = from[places[k] as usize];
    }
}

// The equations: row i is the powers number i + 1 of the points, and sum i. `next` holds the powers of one row after the other.
fn power_rows(matrix: &mut [u16], points: &[u16], next: &mut [u16], sums: &[u16])
    requires same { length next.old ≡ length points.now }
    requires fits { length points.now * (length points.now + 1) ≤ length matrix.old }
    requires sums { length points.now ≤ length sums.now }
    requires small { Elements ten points.now }
    ensures { PowerRows ten (length points.now) points.now sums.now matrix.new }
{
    copy(points, next);
    for i in 0..points.len() {
        put_equation(matrix, i, next, sums[i]);
        gf::multiply(next, points);
    }
}

/// Finds what a code word near a word with these power sums differs by at the places, and the points there.
pub fn find_values(
    sums: &[u16],
    places: &[u16],
    points: &[u16],
    matrix: &mut [u16],
    there: &mut [u16],
    next: &mut [u16],
    values: &mut [u16],
)
    requires suspects { Suspects ten (length points.now) sums.now places.now }
    requires small { Elements ten sums.now }
    requires points { Powers ten 0 points.now }
    requires order { length points.now ≤ order ten }
    requires half { length sums.now ≤ length points.now }
    requires matrix { length places.now * (length places.now + 1) ≤ length matrix.old }
    requires there { length there.old ≡ length places.now }
    requires next { length next.old ≡ length places.now }
    requires values { length values.old ≡ length places.now + 1 }
    ensures there { (k : ℕ) → k < length places.now → get_or there.new k 0 ≡ alpha ten (get_or places.now k 0) }
    ensures values { Values ten (length points.now) sums.now places.now values.new }
{
    let r = places.len();
    gather(points, places, there);
    power_rows(matrix, there, next, sums);
    linear::kernel::kernel_vector(matrix, r, r + 1, values);
}

/// The values are added to the word at the places.
pub fn add_values(word: &mut [u16], places: &[u16], values: &[u16])
    requires same { length values.now ≡ length places.now }
    requires below { (k : ℕ) → k < length places.now → get_or places.now k 0 < length word.old }
    requires rising { (i k : ℕ) → i < k → k < length places.now → get_or places.now i 0 < get_or places.now k 0 }
    ensures { Added places.now values.now (length places.now) word.old word.new }
{
    for k in 0..places.len() {
        word[places[k] as usize] ^= values[k];
    }
}

//! The places that may be wrong: the roots of the locator.
ghost use Rattle.std.specs.Prelude.{◌≡◌, ◌≢◌, ℕ, ◌+◌, ◌*◌, ◌≤◌, ◌<◌, length, get_or, take};
ghost use Rattle.gf.specs.Field.{order};
ghost use Rattle.gf.specs.Ten.{ten};
ghost use Rattle.linear.specs.Matrix.{entry};
ghost use Rattle.code.specs.Stages.{Elements, Powers, Equation, Kept, Collected, Suspects};

use crate::runs::copy;
use crate::sums::power_sums;

/// Row i of a system of equations: the coefficients, and the right side after them.
pub fn put_equation(matrix: &mut [u16], i: usize, left: &[u16], right: u16)
    requires fits { i * (length left.now + 1) + (length left.now + 1) ≤ length matrix.old }
    ensures { Equation i left.now right matrix.old matrix.new }
{
    let r = left.len();
    let at = i * (r + 1);
    copy(left, &mut matrix[at..at + r]);
    matrix[at + r] = right;
}

// The key equations: row i is t + 1 sums, from number i on.
fn key_rows(matrix: &mut [u16], sums: &[u16], t: usize)
    requires matrix { length matrix.old ≡ t * (t + 1) }
    requires sums { length sums.now ≡ t + t }
    ensures { (i j : ℕ) → i < t → j < t + 1 → entry (t + 1) matrix.new i j ≡ get_or sums.now (i + j) 0 }
{
    for i in 0..t {
        put_equation(matrix, i, &sums[i..i + t], sums[i + t]);
    }
}

// Adds the place p to the `count` places if the value there is 0 and there is room. Answers how many there are.
fn keep(places: &mut [u16], count: usize, p: usize, value: u16) -> usize
    requires place { p < 65536 }
    requires few { count ≤ length places.old }
    ensures { Kept p value places.old count places.new result }
{
    if value != 0 {
        return count;
    }
    if places.len() <= count {
        return count;
    }
    places[count] = p as u16;
    count + 1
}

// The places where the value is 0, as many as there is room for. Answers how many.
fn collect(values: &[u16], places: &mut [u16]) -> usize
    requires short { length values.now < 65536 }
    ensures { Collected values.now (length values.now) places.new result }
{
    let mut count = 0;
    for (p, value) in values.iter().enumerate() {
        count = keep(places, count, p, *value);
    }
    count
}

/// Finds the places where a code word near a word with these power sums can differ from it. Answers how many.
pub fn find_places(
    sums: &[u16],
    matrix: &mut [u16],
    locator: &mut [u16],
    values: &mut [u16],
    points: &mut [u16],
    places: &mut [u16],
) -> usize
    requires small { Elements ten sums.now }
    requires double { length sums.now ≡ length places.old + length places.old }
    requires matrix { length matrix.old ≡ length places.old * (length places.old + 1) }
    requires locator { length locator.old ≡ length places.old + 1 }
    requires points { length points.old ≡ length values.old }
    requires order { length values.old ≤ order ten }
    requires half { length places.old + length places.old ≤ length values.old }
    ensures few { result ≤ length places.old }
    ensures suspects { Suspects ten (length values.old) sums.now (take result places.new) }
    ensures points { Powers ten 0 points.new }
{
    let t = places.len();
    key_rows(matrix, sums, t);
    linear::kernel::kernel_vector(matrix, t, t + 1, locator);
    power_sums(locator, 0, values, points);
    collect(values, places)
}

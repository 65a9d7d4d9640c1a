//! The word that is sent: the vector times [I, GE], with the error values added at their places.
ghost use Rattle.std.specs.Prelude.{◌≡◌, ℕ, ◌+◌, ◌-◌, ◌*◌, ◌<◌, ◌≤◌, ◌^◌, length, get_or};
ghost use Rattle.bits.specs.Bits.{elements_at};
ghost use Rattle.sealing.specs.Steps.{Rising, Encoded, Added};

use gf::add_multiple;
use reader::elements;

/// The vector times [I, GE], into `word`. The rows of GE stand in the key after its first byte; there is room for one.
pub fn encode(key: &[u8], m: usize, vector: &[u16], row: &mut [u16], word: &mut [u16])
    requires narrow { m ≤ 16 }
    requires columns { length vector.now + length row.old ≡ length word.old }
    requires small { length word.old ≤ 65536 }
    requires inside { 8 + m * (length vector.now * length row.old) ≤ 8 * length key.now }
    ensures { Encoded (elements_at (length vector.now * length row.old) m key.now 8) vector.now (length row.old) word.new }
{
    let (front, sums) = word.split_at_mut(vector.len());
    front.copy_from_slice(vector);
    sums.fill(0);
    let mut place = 8;
    for x in vector {
        place = elements(key, m, place, row);
        add_multiple(sums, *x, row);
    }
}

/// Each of the values is added at its place. Backwards, and in no one function with decoding's: of a place that stands twice the first value
/// counts, as `error_at` has it.
pub fn add_values(word: &mut [u16], places: &[u16], values: &[u16])
    requires same_length { length values.now ≡ length places.now }
    requires rising { Rising places.now }
    requires inside { (i : ℕ) → i < length places.now → get_or places.now i 0 < length word.old }
    ensures { Added places.now values.now 0 word.old word.new }
{
    for i in (0..places.len()).rev() {
        word[usize::from(places[i])] ^= values[i];
    }
}

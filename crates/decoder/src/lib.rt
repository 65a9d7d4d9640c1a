//! Decoding as a call that takes any slices: for the program that decodes stored words, and, through `decoder_c`, for the benchmark. No user of the library
//! needs it: opening decodes in its own work area.
#![tactic(auto)]

ghost use Rattle.std.specs.Prelude.{◌≡◌};
ghost use Rattle.decoder.specs.Small.{AllSmall};

use code::Undecodable;

// Whether each number is a field element.
fn all_small(word: &[u16]) -> bool
    ensures { AllSmall word.now result }
{
    word.iter().all(|x| *x < 1024)
}

/// Decodes a word in place if its length, t, the work area and its elements are such as `code::decode` asks, and refuses it if not.
pub fn decoded(word: &mut [u16], t: usize, work: &mut [u16]) -> Result<(), Undecodable> {
    let n = word.len();
    if n > 1023 || t > n / 2 {
        return Err(Undecodable);
    }
    if work.len() < t * (t + 1) + 6 * t + 3 * n + 1 {
        return Err(Undecodable);
    }
    if !all_small(word) {
        return Err(Undecodable);
    }
    code::decode(word, t, work)
}

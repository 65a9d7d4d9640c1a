//! Bytes as a string of bits: elements of m bits read from it and written to it at any bit place, and 16-bit numbers.
//!
//! `pack_call` and `unpack_call` take any input. The functions they stand on, which the layers above use, say what they require.
//!
//! The width m stays a number with a clause, and no type: it comes from a set or from C at every call, and a type would be made and taken
//! apart at each.
#![tactic(auto)]

mod numbers;
mod reading;
mod writing;

ghost use Rattle.std.specs.Prelude.{◌≡◌, ◌<◌, ◌≤◌, ◌^◌};
ghost use Rattle.bits.specs.Bits.{elements_in, bytes_for};
ghost use Rattle.bits.specs.Answer.{Unpacked, Packed};

use lists::Refused;
pub use numbers::{get_numbers, number_at, put_number, put_numbers};
pub use reading::{bits_at, tail_zero, unpack, unpack_at};
pub use writing::{pack, small};

/// How many whole elements some bytes hold; 8 times the number of bytes need not fit a usize.
#[tactic(auto, using(crate::proofs::Windows::elements_counted))]
fn element_count(m: usize, bytes: usize) -> usize
    requires wide { 8 ≤ m }
    requires narrow { m ≤ 16 }
    requires short { bytes < 2 ^ 63 }
    ensures { result ≡ elements_in m bytes }
{
    8 * (bytes / m) + 8 * (bytes % m) / m
}

/// How many bytes some elements take; m times the number of elements need not fit either.
#[tactic(auto, using(crate::proofs::Windows::bytes_counted))]
fn byte_count(m: usize, elements: usize) -> usize
    requires narrow { m ≤ 16 }
    requires short { elements < 2 ^ 62 }
    ensures { result ≡ bytes_for m elements }
{
    m * (elements / 8) + (m * (elements % 8) + 7) / 8
}

/// Bytes to elements of m bits. Refused, with nothing written: m is not from 8 to 16, or `out` is not as long as the elements are many.
pub fn unpack_call(m: usize, bytes: &[u8], out: &mut [u16]) -> Result<(), Refused>
    ensures { Unpacked m bytes.now out.old result out.new }
{
    if !(8..=16).contains(&m) || out.len() != element_count(m, bytes.len()) {
        return Err(Refused);
    }
    unpack(bytes, m, out);
    Ok(())
}

/// Elements of m bits to bytes. Refused, with nothing written: m is not from 8 to 16, `out` has not the length that the elements take, or
/// an element is 2 to the m or more.
pub fn pack_call(m: usize, elements: &[u16], out: &mut [u8]) -> Result<(), Refused>
    ensures { Packed m elements.now out.old result out.new }
{
    if !(8..=16).contains(&m) || out.len() != byte_count(m, elements.len()) || !small(elements, m) {
        return Err(Refused);
    }
    pack(elements, m, out);
    Ok(())
}

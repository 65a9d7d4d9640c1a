//! The field calls, each with its own yes or no. A number of 1024 or more is no element: the answer is None.
//!
//! `product` and `power` stand here and at the head of the crate: there without a table, of elements, and they cannot fail.
ghost use Rattle.std.specs.Prelude.{◌≡◌, ◌<◌};
ghost use Rattle.gf.specs.Field.{size, mul};
ghost use Rattle.gf.specs.Ten.{ten};
ghost use Rattle.gf.specs.Answers.{sum_answer, product_answer, inverse_answer, power_answer, LogarithmAnswer};

use crate::logs::log_at;
use crate::pows::pow_at;

/// the sum of two elements
pub fn sum(a: u16, b: u16) -> Option<u16>
    ensures { result ≡ sum_answer a b }
{
    if a >= 1024 || b >= 1024 {
        return None;
    }
    Some(a ^ b)
}

// the product of two elements, by the tables: the logarithms are added modulo 1023
fn by_tables(a: u16, b: u16) -> u16
    requires a_in { a < size ten }
    requires b_in { b < size ten }
    ensures { result ≡ mul ten a b }
{
    if a == 0 || b == 0 {
        return 0;
    }
    let i = log_at(a as usize);
    let j = log_at(b as usize);
    pow_at(((i + j) % 1023) as usize)
}

/// the product of two elements
pub fn product(a: u16, b: u16) -> Option<u16>
    ensures { result ≡ product_answer a b }
{
    if a >= 1024 || b >= 1024 {
        return None;
    }
    Some(by_tables(a, b))
}

/// the inverse of an element; of 0 there is none
pub fn inverse(a: u16) -> Option<u16>
    ensures { result ≡ inverse_answer a }
{
    if a >= 1024 || a == 0 {
        return None;
    }
    Some(crate::reciprocal(a))
}

/// the logarithm of an element, 0 to 1022; of 0 there is none
pub fn logarithm(a: u16) -> Option<u16>
    ensures { LogarithmAnswer a result }
{
    if a >= 1024 || a == 0 {
        return None;
    }
    Some(log_at(a as usize))
}

/// α to the i, for i from 0 to 1023
pub fn power(i: u16) -> Option<u16>
    ensures { result ≡ power_answer i }
{
    if i >= 1024 {
        return None;
    }
    Some(crate::power(i as usize))
}

//! SHA-512 (FIPS 180-4) and the mask generator (RLCE-KEM specification of September 14, 2017, section 7.4).
//! Other crates use `calls`, or, inside the library, `hasher` and `mask`.
#![tactic(auto)]

pub mod block;
pub mod calls;
pub mod constants;
pub mod hasher;
pub mod mask;
pub mod word;

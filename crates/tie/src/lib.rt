//! The scheme's definitions on lists of numbers, tied to those of the crate `pairs` on elements of a field; no code.
#![tactic(auto)]

//! Mathematics over a field, with no code that runs: words, weight, the code, polynomials, row operations.
#![tactic(auto)]

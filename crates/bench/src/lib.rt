//! Known values of the definitions that are small enough to be computed, as one table; no code.
#![tactic(auto)]

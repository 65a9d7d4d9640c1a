//! Key pairs over a field, with no code that runs: why every pair of our setup is good, and why a good pair opens what it sealed.
#![tactic(auto)]

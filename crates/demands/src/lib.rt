//! The promises about calls and key pairs, as theorems over the definitions of the scheme; no code.
#![tactic(auto)]

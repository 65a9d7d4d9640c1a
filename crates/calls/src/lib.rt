//! The five calls for users, for any slices: `founding::setup`, `closing::seal`, `closing::wrap`, `disclosing::open` and `disclosing::unwrap`.
//!
//! Each makes the first checks, does its work, and wipes: the work area always, the outputs on a refusal, and the stack that it used. What each
//! promises is defined in the crate `scheme` (specs/Calls.antt).
#![tactic(auto)]

mod checks;
pub mod closing;
pub mod disclosing;
pub mod founding;
mod stack;

//! What every layer says of lists and loops, and the refusal of the low calls.
#![tactic(auto)]

ghost use Rattle.std.specs.Prelude.{◌≡◌};
ghost use Rattle.lists.specs.Answers.{number_of};

/// A low call refused its input: packing, shuffling, inverting and hashing. What it was lent is as it was.
#[derive(Clone, Copy, Debug, PartialEq, Eq)]
pub struct Refused;

/// The number that C gets for an answer of a low call.
pub fn number(answer: Result<(), Refused>) -> u8
    ensures { result ≡ number_of answer }
{
    match answer {
        Ok(()) => 0,
        Err(Refused) => 2,
    }
}

//! The definitions of RLCE wrapping stand in specs/; the code that meets them stands in the crates above.
#![tactic(auto)]

ghost use Rattle.std.specs.Prelude.{◌≡◌};
ghost use Rattle.scheme.specs.Answers.{number_of};

/// Why a call is refused.
#[derive(Clone, Copy, Debug, PartialEq, Eq)]
pub enum Refusal {
    UnknownSet = 1,
    WrongLength = 2,
    FewMultipliers = 3,
    FewElements = 4,
    NoWindow = 5,
    Dependent = 6,
    Malformed = 7,
    Singular = 8,
    ZeroValues = 9,
    NotOpened = 10,
    WrongSecret = 11,
}

impl From<Refusal> for u8 {
    ghost from_gives = { λ refusal number. number ≡ number_of refusal };

    fn from(refusal: Refusal) -> u8 {
        refusal as u8
    }
}

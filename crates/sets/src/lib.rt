//! The sets of parameters: their numbers by value, and the set that a set byte names.
#![tactic(auto)]

ghost use Rattle.std.specs.Prelude.{◌≡◌, option_map};
ghost use Rattle.sets.specs.Table.{set_of};
ghost use Rattle.sets.specs.Valid.{Valid};

/// A row of the table of sets, and the lengths that must match.
#[derive(Clone, Copy, Debug, PartialEq, Eq)]
pub struct Set {
    /// the set byte, and the set's number
    pub byte: usize,
    pub number: usize,
    /// the code's length, dimension and errors; the mixed columns; the bits of an element
    pub n: usize,
    pub k: usize,
    pub t: usize,
    pub w: usize,
    pub m: usize,
    /// bytes of the message, the check and the pad seed
    pub k1: usize,
    pub k2: usize,
    pub k3: usize,
    /// how many of the first k places may be mixed
    pub u0: usize,
    /// bytes of the public key, the private key and the ciphertext
    pub public: usize,
    pub private: usize,
    pub cipher: usize,
    /// random bytes of a setup and of a sealing's block; 16-bit numbers of the work area
    pub random: usize,
    pub block: usize,
    pub work: usize,
}

/// A set whose numbers fit together, as those of every row of the table do.
#[derive(Clone, Copy, Debug, PartialEq, Eq)]
pub struct ParameterSet {
    pub set: Set,
    pub ghost valid: { Valid set },
}

pub const SET6: Set = Set {
    byte: 0x16,
    number: 6,
    n: 40,
    k: 20,
    t: 10,
    w: 5,
    m: 10,
    k1: 30,
    k2: 4,
    k3: 4,
    u0: 7,
    public: 626,
    private: 859,
    cipher: 57,
    random: 402,
    block: 24,
    work: 7200,
};

pub const SET1: Set = Set {
    byte: 0x11,
    number: 1,
    n: 532,
    k: 376,
    t: 78,
    w: 96,
    m: 10,
    k1: 504,
    k2: 32,
    k3: 32,
    u0: 123,
    public: 118441,
    private: 121666,
    cipher: 785,
    random: 48617,
    block: 188,
    work: 1336384,
};

/// The set that a set byte names, if there is one.
#[tactic(auto, unfolding(crate::specs::Table::set_of))]
pub fn find(byte: u8) -> Option<ParameterSet>
    ensures named { option_map (λ p. p.set) result ≡ set_of byte }
{
    match byte {
        0x16 => Some(ParameterSet { set: SET6 }),
        0x11 => Some(ParameterSet { set: SET1 }),
        _ => None,
    }
}

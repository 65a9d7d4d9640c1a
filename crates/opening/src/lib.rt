//! Opening a ciphertext with a private key (RLCE-KEM specification of September 14, 2017, section 6.3).
#![tactic(auto)]

ghost use Rattle.std.specs.Prelude.{◌≡◌, ◌+◌, ◌-◌, ◌*◌, ◌≤◌, length};
ghost use Rattle.opening.specs.Area.{open_room, cipher_room};
ghost use Rattle.opening.specs.Ending.{OpensAs, refusal_of};

use key::PrivateKey;
use prepare::{PreparedKey, prepare};
use scheme::Refusal;
use sets::Set;

mod finish;
pub mod key;
mod matrix;
mod places;
mod prepare;
mod sums;
mod undo;
mod vector;

/// Why nothing is opened.
#[derive(Clone, Copy, Debug, PartialEq, Eq)]
pub enum Failure {
    /// The key is not well formed.
    Malformed,
    /// The key's matrix W is singular.
    Singular,
    /// The ciphertext is none that sealing makes.
    NotOpened,
}

impl From<Failure> for Refusal {
    ghost from_gives = { λ failure refusal. refusal ≡ refusal_of failure };

    fn from(failure: Failure) -> Refusal {
        match failure {
            Failure::Malformed => Refusal::Malformed,
            Failure::Singular => Refusal::Singular,
            Failure::NotOpened => Refusal::NotOpened,
        }
    }
}

/// Opens the ciphertext with a key that is prepared.
fn open_prepared(
    prepared: &PreparedKey,
    cipher: &[u8],
    message: &mut [u8],
    work: &mut [u16],
) -> Result<(), Failure>
    requires cipher { length cipher.now ≡ prepared.now.key.parameters.set.cipher }
    requires message { length message.old ≡ prepared.now.key.parameters.set.k1 }
    requires room { cipher_room prepared.now.key.parameters.set ≤ length work.old }
    requires places_fit { 2 * prepared.now.key.parameters.set.t ≤ 1024 }
    requires padded_fit { prepared.now.key.parameters.set.k1 + prepared.now.key.parameters.set.k2 + prepared.now.key.parameters.set.k3 ≤ 2048 }
    ensures { OpensAs prepared.now.key.parameters.set prepared.now.key.bytes.now cipher.now result message.new }
{
    let Set { n, k, t, w, m, .. } = prepared.key.parameters.set;
    if !bits::tail_zero(cipher, m) {
        return Err(Failure::NotOpened);
    }
    let (received, rest) = work.split_at_mut(n + w);
    let (word, rest) = rest.split_at_mut(n);
    bits::unpack(cipher, m, received);
    prepared.receive(received, word, rest)?;
    // what decoding worked in is free again
    let (sent, rest) = rest.split_at_mut(n + w);
    let (string, rest) = rest.split_at_mut(k + t);
    let (places, rest) = rest.split_at_mut(t);
    let u = prepared.mixed.len();
    let (right, rest) = rest.split_at_mut(u);
    prepared.find_vector(word, sent, right, &mut rest[..u]);
    prepared.finish(received, sent, string, places, message)
}

/// Opens the ciphertext with the key. The key is judged first: malformed, or its matrix W singular. With `Ok` the message is the one that the
/// ciphertext opens to; else the slice of the message holds anything, and so does the work area in any case.
pub fn open(
    key: &PrivateKey,
    cipher: &[u8],
    message: &mut [u8],
    work: &mut [u16],
) -> Result<(), Failure>
    requires cipher { length cipher.now ≡ key.now.parameters.set.cipher }
    requires message { length message.old ≡ key.now.parameters.set.k1 }
    requires room { open_room key.now.parameters.set ≤ length work.old }
    requires places_fit { 2 * key.now.parameters.set.t ≤ 1024 }
    requires padded_fit { key.now.parameters.set.k1 + key.now.parameters.set.k2 + key.now.parameters.set.k3 ≤ 2048 }
    ensures { OpensAs key.now.parameters.set key.now.bytes.now cipher.now result message.new }
{
    let Set { n, k, w, .. } = key.parameters.set;
    let (front, back) = work.split_at_mut(k * (n + w - k) + (n + w) + n + k + k + k * (k + k));
    let prepared = prepare(key, front)?;
    open_prepared(&prepared, cipher, message, back)
}

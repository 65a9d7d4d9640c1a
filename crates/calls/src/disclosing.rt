//! Opening a ciphertext and unwrapping a secret with a private key.
ghost use Rattle.std.specs.Prelude.{◌≡◌, ◌≤◌, length};
ghost use Rattle.scheme.specs.Opening.{Opens};
ghost use Rattle.scheme.specs.Calls.{open_lengths, Opening, GivesSecret, OpenEnds, UnwrapEnds};
ghost use Rattle.calls.specs.Given.{OpenServes};

use crate::checks::{read_set, secret_fits};
use crate::stack::cleared;
use opening::key::PrivateKey;
use scheme::Refusal;
use sets::Set;

/// What opening may leave on the stack: frames of 4700 bytes, and 7600 where the C library is bound at its first call, which saves registers.
const OPEN_DEPTH: usize = 8704;

/// The same of unwrapping: 6800 bytes, and 9700.
const UNWRAP_DEPTH: usize = 10752;

/// Whether the lengths are those of the set.
fn right_lengths(s: Set, key: usize, cipher: usize, work: usize) -> bool
    ensures { result ≡ open_lengths s key cipher work }
{
    key == s.private && cipher == s.cipher && work == s.work
}

/// Opens past the first checks. The work area is zero afterwards, and on a refusal the message is.
#[inline(never)]
fn open_message(
    key: &PrivateKey,
    cipher: &[u8],
    message: &mut [u8],
    work: &mut [u16],
) -> Result<(), Refusal>
    requires serves { OpenServes key.now.parameters.set }
    requires cipher { length cipher.now ≡ key.now.parameters.set.cipher }
    requires message { length message.old ≡ key.now.parameters.set.k1 }
    requires work { length work.old ≡ key.now.parameters.set.work }
    ensures { Opening key.now.parameters.set key.now.bytes.now cipher.now (Opens key.now.parameters.set key.now.bytes.now cipher.now) message.old work.old result message.new work.new }
{
    let opened = opening::open(key, cipher, message, work);
    work.fill(0);
    if opened.is_err() {
        message.fill(0);
    }
    opened.map_err(Refusal::from)
}

/// Unwraps past the first checks: the secret is the front of the message, and zero where the message is.
#[inline(never)]
fn unwrap_secret(
    key: &PrivateKey,
    cipher: &[u8],
    secret: &mut [u8],
    work: &mut [u16],
) -> Result<(), Refusal>
    requires serves { OpenServes key.now.parameters.set }
    requires cipher { length cipher.now ≡ key.now.parameters.set.cipher }
    requires secret { length secret.old ≤ key.now.parameters.set.k1 }
    requires work { length work.old ≡ key.now.parameters.set.work }
    ensures { Opening key.now.parameters.set key.now.bytes.now cipher.now (GivesSecret key.now.parameters.set key.now.bytes.now cipher.now (length secret.old)) secret.old work.old result secret.new work.new }
{
    let mut room = [0u8; 2048];
    let (message, _) = room.split_at_mut(key.parameters.set.k1);
    let answer = open_message(key, cipher, message, work);
    secret.copy_from_slice(&message[..secret.len()]);
    answer
}

/// Writes the message that a ciphertext opens to under a private key.
///
/// The key's first byte names the set. Key, ciphertext, message and work area have the set's lengths, or nothing is written. Otherwise the work
/// area is zero afterwards, and on a refusal the message is.
pub fn open(key: &[u8], cipher: &[u8], message: &mut [u8], work: &mut [u16]) -> Result<(), Refusal>
    ensures { OpenEnds key.now cipher.now message.old work.old result message.new work.new }
{
    let parameters = read_set(key)?;
    let s = parameters.set;
    if !right_lengths(s, key.len(), cipher.len(), work.len()) {
        return Err(Refusal::WrongLength);
    }
    if message.len() != s.k1 {
        return Err(Refusal::WrongLength);
    }
    let key = PrivateKey {
        parameters,
        bytes: key,
    };
    cleared::<(), OPEN_DEPTH>(open_message(&key, cipher, message, work))
}

/// Writes the secret that was wrapped in a ciphertext: the first bytes of the message that it opens to, as many as the secret has.
///
/// The secret has 1 to k1 bytes, or the call is refused and nothing is written. All else is as `open` has it.
pub fn unwrap(key: &[u8], cipher: &[u8], secret: &mut [u8], work: &mut [u16]) -> Result<(), Refusal>
    ensures { UnwrapEnds key.now cipher.now secret.old work.old result secret.new work.new }
{
    let parameters = read_set(key)?;
    let s = parameters.set;
    if !right_lengths(s, key.len(), cipher.len(), work.len()) {
        return Err(Refusal::WrongLength);
    }
    if !secret_fits(s, secret.len()) {
        return Err(Refusal::WrongSecret);
    }
    let key = PrivateKey {
        parameters,
        bytes: key,
    };
    cleared::<(), UNWRAP_DEPTH>(unwrap_secret(&key, cipher, secret, work))
}

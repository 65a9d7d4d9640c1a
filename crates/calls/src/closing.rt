//! Sealing a message and wrapping a secret under a public key.
//!
//! The slices go one by one, as the C interface has them.
ghost use Rattle.std.specs.Prelude.{◌≡◌, ◌<◌, ◌≤◌, length};
ghost use Rattle.scheme.specs.Sealing.{secret_message};
ghost use Rattle.scheme.specs.Calls.{seal_lengths, after_seal, seal_ends, wrap_ends};
ghost use Rattle.calls.specs.Given.{Serves};
ghost use Rattle.calls.specs.Ends.{seal_end};

use crate::checks::{read_set, secret_fits};
use crate::stack::cleared;
use scheme::Refusal;
use sets::ParameterSet;

/// What sealing may leave on the stack: frames of 2700 bytes, and 5600 where the C library is bound at its first call, which saves registers.
const SEAL_DEPTH: usize = 6656;

/// The same of wrapping: 5100 bytes, and 7200.
const WRAP_DEPTH: usize = 8704;

/// Whether the lengths are those of the set, and the random bytes from 1 to 16 blocks.
fn right_lengths(
    parameters: ParameterSet,
    key: usize,
    random: usize,
    cipher: usize,
    work: usize,
) -> bool
    ensures { result ≡ seal_lengths parameters.set key random cipher work }
{
    let s = parameters.set;
    let blocks = random / s.block;
    key == s.public
        && random % s.block == 0
        && 1 <= blocks
        && blocks <= 16
        && cipher == s.cipher
        && work == s.work
}

/// Seals past the first checks. The work area is zero afterwards, and on a refusal the ciphertext is.
#[inline(never)]
fn seal_message(
    parameters: ParameterSet,
    key: &[u8],
    random: &[u8],
    message: &[u8],
    cipher: &mut [u8],
    work: &mut [u16],
) -> Result<usize, Refusal>
    requires serves { Serves parameters.set }
    requires key { length key.now ≡ parameters.set.public }
    requires message { length message.now ≡ parameters.set.k1 }
    requires cipher { length cipher.old ≡ parameters.set.cipher }
    requires work { length work.old ≡ parameters.set.work }
    ensures { seal_end result cipher.new work.new ≡ after_seal parameters.set key.now random.now message.now cipher.old work.old }
{
    let block = sealing::seal(parameters, key, random, message, cipher, work);
    work.fill(0);
    if block.is_none() {
        cipher.fill(0);
    }
    block.ok_or(Refusal::ZeroValues)
}

/// Wraps past the first checks: seals the secret with zero bytes behind it.
#[inline(never)]
fn wrap_secret(
    parameters: ParameterSet,
    key: &[u8],
    random: &[u8],
    secret: &[u8],
    cipher: &mut [u8],
    work: &mut [u16],
) -> Result<usize, Refusal>
    requires serves { Serves parameters.set }
    requires key { length key.now ≡ parameters.set.public }
    requires secret { length secret.now ≤ parameters.set.k1 }
    requires cipher { length cipher.old ≡ parameters.set.cipher }
    requires work { length work.old ≡ parameters.set.work }
    ensures { seal_end result cipher.new work.new ≡ after_seal parameters.set key.now random.now (secret_message parameters.set secret.now) cipher.old work.old }
{
    let mut room = [0u8; 2048];
    let (message, _) = room.split_at_mut(parameters.set.k1);
    message[..secret.len()].copy_from_slice(secret);
    seal_message(parameters, key, random, message, cipher, work)
}

/// Writes the ciphertext of a message of k1 bytes under a public key, by the first random block that fits, and answers the number of the
/// block.
///
/// The key's first byte names the set. Key, message, ciphertext and work area have the set's lengths, and the random bytes are 1 to 16 blocks
/// of the set's, or nothing is written. Otherwise the work area is zero afterwards, and on a refusal the ciphertext is.
pub fn seal(
    key: &[u8],
    random: &[u8],
    message: &[u8],
    cipher: &mut [u8],
    work: &mut [u16],
) -> Result<usize, Refusal>
    ensures { seal_end result cipher.new work.new ≡ seal_ends key.now random.now message.now cipher.old work.old }
{
    let parameters = read_set(key)?;
    let s = parameters.set;
    if !right_lengths(
        parameters,
        key.len(),
        random.len(),
        cipher.len(),
        work.len(),
    ) {
        return Err(Refusal::WrongLength);
    }
    if message.len() != s.k1 {
        return Err(Refusal::WrongLength);
    }
    cleared::<usize, SEAL_DEPTH>(seal_message(parameters, key, random, message, cipher, work))
}

/// Writes the ciphertext of a secret of 1 to k1 bytes, which zero bytes fill up to k1, as `seal` makes it (RLCE-KEM specification of
/// September 14, 2017, section 6.4).
///
/// A secret of another length is refused, and nothing is written. All else is as `seal` has it.
pub fn wrap(
    key: &[u8],
    random: &[u8],
    secret: &[u8],
    cipher: &mut [u8],
    work: &mut [u16],
) -> Result<usize, Refusal>
    ensures { seal_end result cipher.new work.new ≡ wrap_ends key.now random.now secret.now cipher.old work.old }
{
    let parameters = read_set(key)?;
    let s = parameters.set;
    if !right_lengths(
        parameters,
        key.len(),
        random.len(),
        cipher.len(),
        work.len(),
    ) {
        return Err(Refusal::WrongLength);
    }
    if !secret_fits(s, secret.len()) {
        return Err(Refusal::WrongSecret);
    }
    cleared::<usize, WRAP_DEPTH>(wrap_secret(parameters, key, random, secret, cipher, work))
}

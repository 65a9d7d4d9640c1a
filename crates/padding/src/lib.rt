//! RLCEpad and RLCEpadDecode (RLCE-KEM specification of September 14, 2017, section 7.13), in place on the padded string: message,
//! check bytes, pad seed. Decoding takes the masks of padding off again, in reverse order.
#![tactic(auto)]

ghost use Rattle.std.specs.Prelude.{◌≡◌, ◌+◌, ◌^◌, ◌<◌, fold, length};
ghost use Rattle.std.specs.Int.Bits.{bit_or};
ghost use Rattle.scheme.specs.Padding.{lost_bits, cleared, padded};
ghost use Rattle.padding.specs.Steps.{stripped};
ghost use Rattle.padding.specs.Unpads.{Unpads};

use hash::mask::{fill_mask_of, xor_mask_of};
use sets::ParameterSet;

/// The check bytes of a padded string are not those of its message.
#[derive(Clone, Copy, Debug, PartialEq, Eq)]
pub struct WrongCheck;

// How many bits of the padded string are lost.
fn lost_bits(parameters: ParameterSet) -> usize
    ensures value { result ≡ lost_bits parameters.set }
    ensures less_than_a_byte { result < 8 }
{
    let set = parameters.set;
    8 * (set.k1 + set.k2 + set.k3) - set.m * (set.k + set.t)
}

// The last `lost` bits become zero.
fn clear_last_bits(s: &mut [u8], lost: usize)
    requires not_empty { 0 < length s.old }
    requires less_than_a_byte { lost < 8 }
    ensures { s.new ≡ cleared lost s.old }
{
    let last = s.len() - 1;
    s[last] = s[last] >> lost << lost;
}

// Every bit that is set in some byte: zero where all bytes are, found without a look at where one is not.
fn gathered(s: &[u8]) -> u8
    ensures { result ≡ fold bit_or 0 s.now }
{
    s.iter().fold(0, |bits, byte| bits | byte)
}

/// RLCEpad: the message, padded with the pad seed and e0, into `out`.
pub fn pad(parameters: ParameterSet, msg: &[u8], seed: &[u8], e0: &[u8], out: &mut [u8])
    requires message_length { length msg.now ≡ parameters.set.k1 }
    requires seed_length { length seed.now ≡ parameters.set.k3 }
    requires short_e0 { length e0.now < 2 ^ 32 }
    requires padded_length { length out.old ≡ parameters.set.k1 + parameters.set.k2 + parameters.set.k3 }
    ensures { out.new ≡ padded parameters.set msg.now seed.now e0.now }
{
    let set = parameters.set;
    let (front, last) = out.split_at_mut(set.k1 + set.k2);
    let (message, check) = front.split_at_mut(set.k1);
    message.copy_from_slice(msg);
    last.copy_from_slice(seed);
    clear_last_bits(last, lost_bits(parameters));
    fill_mask_of(&[message, last, e0], check);
    xor_mask_of(&[last, e0], front);
    xor_mask_of(&[front], last);
}

/// RLCEpadDecode: the message of the padded string p, if its check bytes are right. p is worked on in place.
pub fn unpad(
    parameters: ParameterSet,
    p: &mut [u8],
    e0: &[u8],
    msg: &mut [u8],
) -> Result<(), WrongCheck>
    requires short_e0 { length e0.now < 2 ^ 32 }
    requires padded_length { length p.old ≡ parameters.set.k1 + parameters.set.k2 + parameters.set.k3 }
    requires message_length { length msg.old ≡ parameters.set.k1 }
    ensures unpads { Unpads parameters.set p.old e0.now msg.old result msg.new }
    ensures leaves { p.new ≡ stripped parameters.set.k1 parameters.set.k2 (lost_bits parameters.set) e0.now p.old }
{
    let set = parameters.set;
    let lost = lost_bits(parameters);
    let (front, seed) = p.split_at_mut(set.k1 + set.k2);
    xor_mask_of(&[front], seed);
    clear_last_bits(seed, lost);
    xor_mask_of(&[seed, e0], front);
    let (message, check) = front.split_at_mut(set.k1);
    xor_mask_of(&[message, seed, e0], check);
    if gathered(check) != 0 {
        return Err(WrongCheck);
    }
    msg.copy_from_slice(message);
    Ok(())
}

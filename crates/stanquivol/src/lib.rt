//! The C interface, thin over the proved calls: every function returns the number of its answer. include/stanquivol.h is its manual.
#![tactic(auto)]

ghost use Rattle.std.specs.Prelude.{◌≡◌, ◌<◌};
ghost use Rattle.lists.specs.Answers.{number_of};
ghost use Rattle.bits.specs.Answer.{Unpacked, Packed};
ghost use Rattle.perm.specs.Answer.{Shuffled, Inverted};
ghost use Rattle.hash.specs.Answers.{Digested, Masked};
ghost use Rattle.stanquivol.specs.Coded.{Coded};
ghost use Rattle.scheme.specs.Answers.{coded, coded_opened, count_of};
ghost use Rattle.scheme.specs.Calls.{setup_ends, seal_ends, OpenEnds, wrap_ends, UnwrapEnds};
ghost use Rattle.calls.specs.Ends.{setup_end, seal_end};

use calls::{closing, disclosing, founding};
use lists::Refused;
use scheme::Refusal;

fn number(answer: Result<(), Refused>) -> u16
    ensures { result ≡ number_of answer }
{
    u16::from(lists::number(answer))
}

/// 256 times the count, or the number of the refusal.
fn call_number(answer: Result<usize, Refusal>) -> u16
    requires { count_of answer < 256 }
    ensures { result ≡ coded answer }
{
    match answer {
        Ok(count) => 256 * count as u16,
        Err(refusal) => u16::from(u8::from(refusal)),
    }
}

fn open_number(answer: Result<(), Refusal>) -> u16
    ensures { result ≡ coded_opened answer }
{
    match answer {
        Ok(()) => 0,
        Err(refusal) => u16::from(u8::from(refusal)),
    }
}

#[unsafe(no_mangle)]
pub extern "C" fn stanquivol_unpack(bytes: &[u8], elements: &mut [u16]) -> u16
    ensures { Coded number_of (λ a. Unpacked 10 bytes.now elements.old a elements.new) result }
{
    number(bits::unpack_call(10, bytes, elements))
}

#[unsafe(no_mangle)]
pub extern "C" fn stanquivol_pack(elements: &[u16], bytes: &mut [u8]) -> u16
    ensures { Coded number_of (λ a. Packed 10 elements.now bytes.old a bytes.new) result }
{
    number(bits::pack_call(10, elements, bytes))
}

#[unsafe(no_mangle)]
pub extern "C" fn stanquivol_shuffle(numbers: &[u8], list: &mut [u16]) -> u16
    ensures { Coded number_of (λ a. Shuffled numbers.now list.old a list.new) result }
{
    number(perm::shuffle_call(numbers, list))
}

#[unsafe(no_mangle)]
pub extern "C" fn stanquivol_invert(list: &[u16], inverse: &mut [u16]) -> u16
    ensures { Coded number_of (λ a. Inverted list.now inverse.old a inverse.new) result }
{
    number(perm::invert_call(list, inverse))
}

#[unsafe(no_mangle)]
pub extern "C" fn stanquivol_mask(seed: &[u8], mask: &mut [u8]) -> u16
    ensures { Coded number_of (λ a. Masked seed.now mask.old a mask.new) result }
{
    number(hash::calls::mask(seed, mask))
}

#[unsafe(no_mangle)]
pub extern "C" fn stanquivol_sha512(bytes: &[u8], digest: &mut [u8]) -> u16
    ensures { Coded number_of (λ a. Digested bytes.now digest.old a digest.new) result }
{
    number(hash::calls::sha512(bytes, digest))
}

#[unsafe(no_mangle)]
pub extern "C" fn stanquivol_setup(
    set: u8,
    random: &[u8],
    public_key: &mut [u8],
    private_key: &mut [u8],
    work: &mut [u16],
) -> u16
    ensures { Coded coded (λ a. setup_end a public_key.new private_key.new work.new ≡ setup_ends set random.now public_key.old private_key.old work.old) result }
{
    call_number(founding::setup(set, random, public_key, private_key, work))
}

#[unsafe(no_mangle)]
pub extern "C" fn stanquivol_seal(
    public_key: &[u8],
    random: &[u8],
    message: &[u8],
    cipher: &mut [u8],
    work: &mut [u16],
) -> u16
    ensures { Coded coded (λ a. seal_end a cipher.new work.new ≡ seal_ends public_key.now random.now message.now cipher.old work.old) result }
{
    call_number(closing::seal(public_key, random, message, cipher, work))
}

#[unsafe(no_mangle)]
pub extern "C" fn stanquivol_open(
    private_key: &[u8],
    cipher: &[u8],
    message: &mut [u8],
    work: &mut [u16],
) -> u16
    ensures { Coded coded_opened (λ a. OpenEnds private_key.now cipher.now message.old work.old a message.new work.new) result }
{
    open_number(disclosing::open(private_key, cipher, message, work))
}

#[unsafe(no_mangle)]
pub extern "C" fn stanquivol_wrap(
    public_key: &[u8],
    random: &[u8],
    secret: &[u8],
    cipher: &mut [u8],
    work: &mut [u16],
) -> u16
    ensures { Coded coded (λ a. seal_end a cipher.new work.new ≡ wrap_ends public_key.now random.now secret.now cipher.old work.old) result }
{
    call_number(closing::wrap(public_key, random, secret, cipher, work))
}

#[unsafe(no_mangle)]
pub extern "C" fn stanquivol_unwrap(
    private_key: &[u8],
    cipher: &[u8],
    secret: &mut [u8],
    work: &mut [u16],
) -> u16
    ensures { Coded coded_opened (λ a. UnwrapEnds private_key.now cipher.now secret.old work.old a secret.new work.new) result }
{
    open_number(disclosing::unwrap(private_key, cipher, secret, work))
}

//! The way of a message, call after call: what is proved of the calls' promises together is here the contract of code that makes the calls.
//!
//! Kept as a function for each way, sealing and wrapping: one over closures could not say what the calls of both promise of nine buffers.
#![tactic(auto)]

ghost use Rattle.std.specs.Prelude.{◌≡◌};
ghost use Rattle.arrival.specs.Arrives.{Bytes, SealedThen, WrappedThen, SealedWay, WrappedWay};

use calls::closing::{seal, wrap};
use calls::disclosing::{open, unwrap};
use calls::founding::setup;
use scheme::Refusal;

/// How far a message came: no pair was made, it was not sealed, or it was opened, each with what the call that ended it answered.
/// Three ends, so neither an `Option` nor a `Result`.
#[derive(Clone, Copy, Debug, PartialEq, Eq)]
pub enum Way {
    NotMade(Refusal),
    NotSealed(Refusal),
    Opened(Result<(), Refusal>),
}

// What is lent as bytes is below 256: a fact for proofs, and the first byte of it.
fn know_bytes(s: &[u8]) -> u8
    ensures { Bytes s.now }
{
    if s.len() == 0 {
        return 0;
    }
    s[0]
}

// Seals the message and opens what was sealed.
fn seal_then_open(
    public: &[u8],
    private: &[u8],
    random: &[u8],
    message: &[u8],
    cipher: &mut [u8],
    opened: &mut [u8],
    work: &mut [u16],
) -> Way
    ensures { SealedThen public.now private.now random.now message.now cipher.old opened.old work.old result opened.new }
{
    match seal(public, random, message, cipher, work) {
        Err(refusal) => Way::NotSealed(refusal),
        Ok(_) => Way::Opened(open(private, cipher, opened, work)),
    }
}

// Wraps the secret and unwraps what was wrapped.
fn wrap_then_unwrap(
    public: &[u8],
    private: &[u8],
    random: &[u8],
    secret: &[u8],
    cipher: &mut [u8],
    unwrapped: &mut [u8],
    work: &mut [u16],
) -> Way
    ensures { WrappedThen public.now private.now random.now secret.now cipher.old unwrapped.old work.old result unwrapped.new }
{
    match wrap(public, random, secret, cipher, work) {
        Err(refusal) => Way::NotSealed(refusal),
        Ok(_) => Way::Opened(unwrap(private, cipher, unwrapped, work)),
    }
}

/// Sets up a pair, seals the message and opens what was sealed. The message arrives: where the first two calls are done and the room for it
/// has its length, opening is done, and what it gives is the message.
pub fn seal_and_open(
    byte: u8,
    first: &[u8],
    random: &[u8],
    message: &[u8],
    public: &mut [u8],
    private: &mut [u8],
    cipher: &mut [u8],
    opened: &mut [u8],
    work: &mut [u16],
) -> Way
    ensures { SealedWay byte first.now random.now message.now public.old private.old cipher.old opened.old work.old result opened.new }
{
    know_bytes(first);
    know_bytes(random);
    know_bytes(message);
    match setup(byte, first, public, private, work) {
        Err(refusal) => Way::NotMade(refusal),
        Ok(_) => seal_then_open(public, private, random, message, cipher, opened, work),
    }
}

/// The same of a secret: it is wrapped, and unwrapped to as many bytes.
pub fn wrap_and_unwrap(
    byte: u8,
    first: &[u8],
    random: &[u8],
    secret: &[u8],
    public: &mut [u8],
    private: &mut [u8],
    cipher: &mut [u8],
    unwrapped: &mut [u8],
    work: &mut [u16],
) -> Way
    ensures { WrappedWay byte first.now random.now secret.now public.old private.old cipher.old unwrapped.old work.old result unwrapped.new }
{
    know_bytes(first);
    know_bytes(random);
    know_bytes(secret);
    match setup(byte, first, public, private, work) {
        Err(refusal) => Way::NotMade(refusal),
        Ok(_) => wrap_then_unwrap(public, private, random, secret, cipher, unwrapped, work),
    }
}

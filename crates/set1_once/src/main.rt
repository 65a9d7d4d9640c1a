//! Set 1 once through setup, sealing and opening: answers, counts and digests. The random bytes and the message are masks of three words, so
//! that another implementation can make them too; scripts/stored-cases writes the expected output with it.
#![tactic(auto)]

ghost use Rattle.std.specs.Prelude.{◌≡◌, length};

use scheme::Refusal;

// The number of standard output.
const STDOUT: i32 = 1;

// The slices that set 1 takes. Kept in functions of their own, which tell the lengths: the check, which would count them, does not come to
// the end of so many.
fn public_room() -> [u8; 118441]
    ensures { 118441 ≡ length result }
{
    [165; 118441]
}

fn private_room() -> [u8; 121666]
    ensures { 121666 ≡ length result }
{
    [165; 121666]
}

fn work_room() -> [u16; 1336384]
    ensures { 1336384 ≡ length result }
{
    [42405; 1336384]
}

fn random_room() -> [u8; 48617]
    ensures { 48617 ≡ length result }
{
    [0; 48617]
}

fn print_answer(name: &[u8], answer: Result<usize, Refusal>) {
    vectors::text(name);
    io::print_decimal(STDOUT, files::number(answer));
    if let Ok(count) = answer {
        vectors::text(b" count ");
        io::print_decimal(STDOUT, count as u64);
    }
    vectors::text(b"\n");
}

// A name and the digest of a slice.
fn print_digest(name: &[u8], s: &[u8]) {
    vectors::text(name);
    vectors::line(&hash::hasher::digest(s));
}

fn make_keys(public: &mut [u8], private: &mut [u8], work: &mut [u16]) {
    let mut space = random_room();
    let random: &mut [u8] = &mut space;
    let _ = hash::calls::mask(b"setup", random);
    let answer = calls::founding::setup(0x11, random, public, private, work);
    print_answer(b"setup ", answer);
    print_digest(b"public ", public);
    print_digest(b"private ", private);
}

fn seal_message(key: &[u8], message: &[u8], cipher: &mut [u8], work: &mut [u16]) {
    let mut space = [0u8; 376];
    let random: &mut [u8] = &mut space;
    let _ = hash::calls::mask(b"seal", random);
    let answer = calls::closing::seal(key, random, message, cipher, work);
    print_answer(b"seal ", answer);
    print_digest(b"cipher ", cipher);
}

fn open_message(key: &[u8], cipher: &[u8], work: &mut [u16]) {
    let mut space = [165u8; 504];
    let message: &mut [u8] = &mut space;
    let answer = calls::disclosing::open(key, cipher, message, work).map(|()| 0);
    print_answer(b"open ", answer);
    print_digest(b"message ", message);
}

fn seal_and_open(public: &[u8], private: &[u8], work: &mut [u16]) {
    let mut message_space = [0u8; 504];
    let mut cipher_space = [165u8; 785];
    let message: &mut [u8] = &mut message_space;
    let cipher: &mut [u8] = &mut cipher_space;
    let _ = hash::calls::mask(b"message", message);
    seal_message(public, message, cipher, work);
    open_message(private, cipher, work);
    print_digest(b"sealed ", message);
}

fn main() {
    let mut public_space = public_room();
    let mut private_space = private_room();
    let mut work_space = work_room();
    let public: &mut [u8] = &mut public_space;
    let private: &mut [u8] = &mut private_space;
    let work: &mut [u16] = &mut work_space;
    make_keys(public, private, work);
    seal_and_open(public, private, work);
}

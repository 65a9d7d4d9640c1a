//! The whole way in set 1 from three seeds: the masks of the seeds are the random bytes of setup, the message and the random blocks.
ghost use Rattle.std.specs.Prelude.{◌≡◌, ◌<◌, ◌≤◌, length, IfOk, IfErr};
ghost use Rattle.scheme.specs.Answers.{number_of};

use scheme::Refusal;

/// The number of an answer, 0 if it is done.
pub fn number(answer: Result<usize, Refusal>) -> u8
    ensures { IfOk answer (λ n. result ≡ 0) × IfErr answer (λ e. result ≡ number_of e) }
{
    match answer {
        Ok(_) => 0,
        Err(refusal) => u8::from(refusal),
    }
}

/// The count of an answer, 0 if it is refused.
pub fn count(answer: Result<usize, Refusal>) -> u8 {
    answer.map_or(0, |count| (count % 256) as u8)
}

// Kept in a function of its own, which tells the length: the check, which would count it, does not come to the end of so many.
fn work_room() -> [u16; 1336384]
    ensures { 1336384 ≡ length result }
{
    [0; 1336384]
}

// A key pair from the mask of a seed.
fn found(
    seed: &[u8],
    public: &mut [u8],
    private: &mut [u8],
    work: &mut [u16],
) -> Result<usize, Refusal> {
    let mut random = [0u8; 48617];
    let _ = hash::calls::mask(seed, &mut random);
    calls::founding::setup(0x11, &random, public, private, work)
}

// A ciphertext of the mask of a seed, with the mask of another as random blocks.
fn close(
    text: &[u8],
    seed: &[u8],
    public: &[u8],
    cipher: &mut [u8],
    work: &mut [u16],
) -> Result<usize, Refusal> {
    let mut message = [0u8; 504];
    let mut blocks = [0u8; 3008];
    let _ = hash::calls::mask(text, &mut message);
    let _ = hash::calls::mask(seed, &mut blocks);
    calls::closing::seal(public, &blocks, &message, cipher, work)
}

// The digests of the four strings, one after the other.
fn digests(public: &[u8], private: &[u8], cipher: &[u8], opened: &[u8], out: &mut [u8])
    requires { 261 ≤ length out.old }
{
    let _ = hash::calls::sha512(public, &mut out[0..64]);
    let _ = hash::calls::sha512(private, &mut out[64..128]);
    let _ = hash::calls::sha512(cipher, &mut out[128..192]);
    let _ = hash::calls::sha512(opened, &mut out[192..256]);
}

// Then the numbers of the three answers, and the counts of the first two.
fn answers(
    founded: Result<usize, Refusal>,
    closed: Result<usize, Refusal>,
    opened: Result<usize, Refusal>,
    out: &mut [u8],
)
    requires { 261 ≤ length out.old }
{
    out[256] = number(founded);
    out[257] = count(founded);
    out[258] = number(closed);
    out[259] = count(closed);
    out[260] = number(opened);
}

// Both.
fn tell(
    public: &[u8],
    private: &[u8],
    cipher: &[u8],
    message: &[u8],
    founded: Result<usize, Refusal>,
    closed: Result<usize, Refusal>,
    opened: Result<usize, Refusal>,
    out: &mut [u8],
)
    requires { 261 ≤ length out.old }
{
    digests(public, private, cipher, message, out);
    answers(founded, closed, opened, out);
}

// The way in lent slices.
fn walk(
    x: &[u8],
    y: &[u8],
    z: &[u8],
    public: &mut [u8],
    private: &mut [u8],
    work: &mut [u16],
    out: &mut [u8],
)
    requires { 261 ≤ length out.old }
{
    let mut cipher = [0u8; 785];
    let mut message = [0u8; 504];
    let founded = found(x, public, private, work);
    let closed = close(y, z, public, &mut cipher, work);
    let opened = calls::disclosing::open(private, &cipher, &mut message, work).map(|()| 0);
    tell(
        public, private, &cipher, &message, founded, closed, opened, out,
    );
}

/// Digests of public key, private key, ciphertext and opened message, and the answers, if the output has room for just these.
pub fn way(x: &[u8], y: &[u8], z: &[u8], out: &mut [u8]) -> Result<usize, Refusal> {
    if out.len() != 261 {
        return Err(Refusal::WrongLength);
    }
    let mut public = [0u8; 118441];
    let mut private = [0u8; 121666];
    let mut work = work_room();
    walk(x, y, z, &mut public, &mut private, &mut work, out);
    Ok(0)
}

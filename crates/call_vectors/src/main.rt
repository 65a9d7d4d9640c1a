//! The five calls on the cases of standard input, which the second implementation made: each must answer, write and leave what is
//! stored with it. The last line says how many cases agree.
//!
//! A case is a head of 17 bytes, three inputs, and two outputs as they must be afterwards. The head: the verb (0 setup, 1 seal,
//! 2 open, 3 wrap, 4 unwrap, 5 by seeds), setup's set byte, the answer number, the count, whether the work area is kept (1) or
//! zero (0) afterwards, and six lengths of two bytes: inputs, outputs, work area. Before a call every byte that may be written is
//! 0xA5. scripts/call-vectors makes the cases.
//!
//! The slices of a case go one by one: over a struct of their arrays, which was tried, the check came to no end.
#![tactic(auto)]

mod seeded;

ghost use Rattle.std.specs.Prelude.{◌≡◌, ◌+◌, ◌<◌, ◌≤◌, length};

use scheme::Refusal;

// The number of standard input.
const STDIN: i32 = 0;

// The number of standard output.
const STDOUT: i32 = 1;

// Length i of a head.
fn length_at(head: &[u8], i: usize) -> usize
    requires { (17 ≤ length head.now) × (i < 6) }
    ensures { result < 65536 }
{
    let at = 5 + 2 * i;
    usize::from(u16::from_be_bytes([head[at], head[at + 1]]))
}

// The next n bytes of standard input come to the front of s; false where it ends before.
fn fetch(s: &mut [u8], n: usize) -> bool
    requires { n ≤ length s.old }
{
    let got = io::read_full(STDIN, &mut s[..n]);
    got == n
}

/// Which call a case makes.
#[derive(Clone, Copy, Debug, PartialEq, Eq)]
enum Verb {
    Setup,
    Seal,
    Open,
    Wrap,
    Unwrap,
    BySeeds,
}

impl From<u8> for Verb {
    fn from(byte: u8) -> Verb {
        match byte {
            0 => Verb::Setup,
            1 => Verb::Seal,
            2 => Verb::Open,
            3 => Verb::Wrap,
            4 => Verb::Unwrap,
            _ => Verb::BySeeds,
        }
    }
}

/// The answer of a call; one that has no count has count 0.
fn call(
    verb: Verb,
    set: u8,
    x: &[u8],
    y: &[u8],
    z: &[u8],
    p: &mut [u8],
    q: &mut [u8],
    work: &mut [u16],
) -> Result<usize, Refusal> {
    match verb {
        Verb::Setup => calls::founding::setup(set, x, p, q, work),
        Verb::Seal => calls::closing::seal(x, y, z, p, work),
        Verb::Open => calls::disclosing::open(x, y, p, work).map(|()| 0),
        Verb::Wrap => calls::closing::wrap(x, y, z, p, work),
        Verb::Unwrap => calls::disclosing::unwrap(x, y, p, work).map(|()| 0),
        Verb::BySeeds => seeded::way(x, y, z, p),
    }
}

// The call with the outputs and the work area cut to their lengths.
fn call_written(
    head: &[u8],
    x: &[u8],
    y: &[u8],
    z: &[u8],
    p: &mut [u8],
    q: &mut [u8],
    work: &mut [u16],
) -> Result<usize, Refusal>
    requires head_long { 17 ≤ length head.now }
    requires outputs { (65536 ≤ length p.old) × (65536 ≤ length q.old) × (65536 ≤ length work.old) }
{
    let d = length_at(head, 3);
    let e = length_at(head, 4);
    let w = length_at(head, 5);
    call(
        Verb::from(head[0]),
        head[1],
        x,
        y,
        z,
        &mut p[..d],
        &mut q[..e],
        &mut work[..w],
    )
}

// The call with the inputs cut to their lengths.
fn call_cut(
    head: &[u8],
    x: &[u8],
    y: &[u8],
    z: &[u8],
    p: &mut [u8],
    q: &mut [u8],
    work: &mut [u16],
) -> Result<usize, Refusal>
    requires head_long { 17 ≤ length head.now }
    requires inputs { (65536 ≤ length x.now) × (65536 ≤ length y.now) × (65536 ≤ length z.now) }
    requires outputs { (65536 ≤ length p.old) × (65536 ≤ length q.old) × (65536 ≤ length work.old) }
{
    let a = length_at(head, 0);
    let b = length_at(head, 1);
    let c = length_at(head, 2);
    call_written(head, &x[..a], &y[..b], &z[..c], p, q, work)
}

// Reads the inputs of a case.
fn inputs(head: &[u8], x: &mut [u8], y: &mut [u8], z: &mut [u8]) -> bool
    requires head_long { 17 ≤ length head.now }
    requires inputs { (65536 ≤ length x.old) × (65536 ≤ length y.old) × (65536 ≤ length z.old) }
{
    fetch(x, length_at(head, 0)) && fetch(y, length_at(head, 1)) && fetch(z, length_at(head, 2))
}

// Reads an output as it must be, n bytes, and compares.
fn output(n: usize, expected: &mut [u8], got: &[u8]) -> bool
    requires { (n ≤ length expected.old) × (n ≤ length got.now) }
{
    fetch(expected, n) && expected[..n] == got[..n]
}

// Whether the work area is as it must be.
fn work_is(head: &[u8], work: &[u16]) -> bool
    requires { (17 ≤ length head.now) × (65536 ≤ length work.now) }
{
    let w = length_at(head, 5);
    let left = if head[4] == 0 { 0 } else { 0xA5A5 };
    work[..w].iter().all(|x| *x == left)
}

// Whether the answer is as it must be.
fn answer_is(head: &[u8], a: Result<usize, Refusal>) -> bool
    requires { 17 ≤ length head.now }
{
    seeded::number(a) == head[2] && seeded::count(a) == head[3]
}

// Whether all is as it must be after a call; both outputs are read in any case.
fn judge(
    head: &[u8],
    a: Result<usize, Refusal>,
    expected: &mut [u8],
    p: &[u8],
    q: &[u8],
    work: &[u16],
) -> bool
    requires head_long { 17 ≤ length head.now }
    requires outputs { (65536 ≤ length p.now) × (65536 ≤ length q.now) × (65536 ≤ length work.now) × (65536 ≤ length expected.old) }
{
    let first = output(length_at(head, 3), expected, p);
    let second = output(length_at(head, 4), expected, q);
    first && second && work_is(head, work) && answer_is(head, a)
}

// What a call may write is filled before it.
fn fill(p: &mut [u8], q: &mut [u8], work: &mut [u16]) {
    p.fill(0xA5);
    q.fill(0xA5);
    work.fill(0xA5A5);
}

// Makes the call of a case and judges what it leaves.
fn made(
    head: &[u8],
    x: &[u8],
    y: &[u8],
    z: &[u8],
    p: &mut [u8],
    q: &mut [u8],
    expected: &mut [u8],
    work: &mut [u16],
) -> bool
    requires head_long { 17 ≤ length head.now }
    requires inputs { (65536 ≤ length x.now) × (65536 ≤ length y.now) × (65536 ≤ length z.now) }
    requires outputs { (65536 ≤ length p.old) × (65536 ≤ length q.old) × (65536 ≤ length work.old) × (65536 ≤ length expected.old) }
{
    let a = call_cut(head, x, y, z, p, q, work);
    judge(head, a, expected, p, q, work)
}

// The same, with what the call may write filled before it.
fn filled(
    head: &[u8],
    x: &[u8],
    y: &[u8],
    z: &[u8],
    p: &mut [u8],
    q: &mut [u8],
    expected: &mut [u8],
    work: &mut [u16],
) -> bool
    requires head_long { 17 ≤ length head.now }
    requires inputs { (65536 ≤ length x.now) × (65536 ≤ length y.now) × (65536 ≤ length z.now) }
    requires outputs { (65536 ≤ length p.old) × (65536 ≤ length q.old) × (65536 ≤ length work.old) × (65536 ≤ length expected.old) }
{
    fill(p, q, work);
    made(head, x, y, z, p, q, expected, work)
}

// One case.
fn case(
    head: &[u8],
    x: &mut [u8],
    y: &mut [u8],
    z: &mut [u8],
    p: &mut [u8],
    q: &mut [u8],
    expected: &mut [u8],
    work: &mut [u16],
) -> bool
    requires head_long { 17 ≤ length head.now }
    requires inputs { (65536 ≤ length x.old) × (65536 ≤ length y.old) × (65536 ≤ length z.old) }
    requires outputs { (65536 ≤ length p.old) × (65536 ≤ length q.old) × (65536 ≤ length work.old) × (65536 ≤ length expected.old) }
{
    inputs(head, x, y, z) && filled(head, x, y, z, p, q, expected, work)
}

// One for a case that agrees, and none, with a line, for one that differs.
fn score(i: usize, agrees: bool) -> usize
    ensures { result ≤ 1 }
{
    if agrees {
        return 1;
    }
    io::write_all(STDOUT, b"case ");
    io::print_decimal(STDOUT, i as u64);
    io::write_all(STDOUT, b" differs\n");
    0
}

fn sum_up(agree: usize, all: usize) {
    io::print_decimal(STDOUT, agree as u64);
    io::write_all(STDOUT, b" of ");
    io::print_decimal(STDOUT, all as u64);
    io::write_all(STDOUT, b" cases agree\n");
}

fn numbers() -> [u16; 65536]
    ensures { 65536 ≡ length result }
{
    [0; 65536]
}

fn main() {
    let mut head = [0u8; 17];
    let mut x = io::large_buffer();
    let mut y = io::large_buffer();
    let mut z = io::large_buffer();
    let mut p = io::large_buffer();
    let mut q = io::large_buffer();
    let mut expected = io::large_buffer();
    let mut work = numbers();
    let mut agree = 0;
    let mut cases = 0;
    for i in 0..100_000 {
        if io::read_full(STDIN, &mut head) < 17 {
            break;
        }
        let agrees = case(
            &head,
            &mut x,
            &mut y,
            &mut z,
            &mut p,
            &mut q,
            &mut expected,
            &mut work,
        );
        agree += score(i, agrees);
        cases = i + 1;
    }
    sum_up(agree, cases);
}

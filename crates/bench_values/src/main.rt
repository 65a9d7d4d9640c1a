//! The five calls on stored cases: the bench values that are not proved by computation, every answer number of set 6, round trips, and the
//! order of refusals. A line each: the case, the number that is expected, the answer, what the lent outputs hold afterwards (the start of a
//! digest where they are full), and the work area. scripts/stored-cases makes the cases and the expected output with another implementation.
//!
//! A case is a head of sixteen bytes, its label, and three inputs, some of them empty.
#![tactic(auto)]

ghost use Rattle.std.specs.Prelude.{◌≡◌, ◌<◌, length};

use scheme::Refusal;

// The number of standard input.
const STDIN: i32 = 0;

// The number of standard output.
const STDOUT: i32 = 1;

// The five calls, by their numbers in a head; each greater number is unwrap too.
#[derive(Clone, Copy, PartialEq, Eq)]
enum Verb {
    Setup,
    Seal,
    Wrap,
    Open,
    Unwrap,
}

impl From<u8> for Verb {
    fn from(number: u8) -> Verb {
        match number {
            0 => Verb::Setup,
            1 => Verb::Seal,
            2 => Verb::Wrap,
            3 => Verb::Open,
            _ => Verb::Unwrap,
        }
    }
}

// The head of a case: the call, the set byte for setup, the number that is expected, and the lengths of label, inputs and lent slices.
#[derive(Clone, Copy)]
struct Case {
    verb: Verb,
    byte: u8,
    expected: u8,
    label: usize,
    first: usize,
    second: usize,
    third: usize,
    out: usize,
    other: usize,
    work: usize,
}

// Room for inputs, outputs and the work area.
fn input_room() -> [u8; 1024]
    ensures { 1024 ≡ length result }
{
    [0; 1024]
}

fn output_room() -> [u8; 1024]
    ensures { 1024 ≡ length result }
{
    [165; 1024]
}

fn work_room() -> [u16; 8192]
    ensures { 8192 ≡ length result }
{
    [42405; 8192]
}

// The number of two bytes.
fn pair(high: u8, low: u8) -> usize {
    usize::from(u16::from_be_bytes([high, low]))
}

fn case_of(h: &[u8; 16]) -> Case {
    Case {
        verb: Verb::from(h[0]),
        byte: h[1],
        expected: h[2],
        label: usize::from(h[3]),
        first: pair(h[4], h[5]),
        second: pair(h[6], h[7]),
        third: pair(h[8], h[9]),
        out: pair(h[10], h[11]),
        other: pair(h[12], h[13]),
        work: pair(h[14], h[15]),
    }
}

// Reads n bytes to the start of the slice, if they fit there and the input has them.
fn read_bytes(s: &mut [u8], n: usize) -> bool {
    if s.len() < n {
        return false;
    }
    io::read_full(STDIN, &mut s[0..n]) == n
}

fn print_first(s: &[u8], n: usize) {
    if n <= s.len() {
        vectors::text(&s[0..n]);
    }
}

// What an output holds after the call; before it all bytes were 165.
fn print_output(s: &[u8]) {
    if s.is_empty() {
        vectors::text(b"empty");
        return;
    }
    if s.iter().all(|&x| x == 0) {
        vectors::text(b"zero");
        return;
    }
    if s.iter().all(|&x| x == 165) {
        vectors::text(b"as before");
        return;
    }
    let d = hash::hasher::digest(s);
    vectors::hex(&d[0..16]);
}

// What the work area holds after the call; before it all numbers were 42405.
fn print_work(s: &[u16]) {
    vectors::text(b"; work ");
    if s.is_empty() {
        vectors::text(b"empty\n");
        return;
    }
    if s.iter().all(|&x| x == 0) {
        vectors::text(b"zero\n");
        return;
    }
    if s.iter().all(|&x| x == 42405) {
        vectors::text(b"as before\n");
        return;
    }
    vectors::text(b"neither\n");
}

fn print_answer(expected: u8, answer: Result<usize, Refusal>) {
    vectors::text(b": expected ");
    io::print_decimal(STDOUT, u64::from(expected));
    vectors::text(b", got ");
    io::print_decimal(STDOUT, files::number(answer));
    if let Ok(count) = answer {
        vectors::text(b" count ");
        io::print_decimal(STDOUT, count as u64);
    }
}

fn call(
    c: Case,
    first: &[u8],
    second: &[u8],
    third: &[u8],
    out: &mut [u8],
    other: &mut [u8],
    work: &mut [u16],
) -> Result<usize, Refusal> {
    match c.verb {
        Verb::Setup => calls::founding::setup(c.byte, first, out, other, work),
        Verb::Seal => calls::closing::seal(first, second, third, out, work),
        Verb::Wrap => calls::closing::wrap(first, second, third, out, work),
        Verb::Open => calls::disclosing::open(first, second, out, work).map(|()| 0),
        Verb::Unwrap => calls::disclosing::unwrap(first, second, out, work).map(|()| 0),
    }
}

fn show(
    c: Case,
    first: &[u8],
    second: &[u8],
    third: &[u8],
    out: &mut [u8],
    other: &mut [u8],
    work: &mut [u16],
) {
    let answer = call(c, first, second, third, out, other, work);
    print_answer(c.expected, answer);
    vectors::text(b"; ");
    print_output(out);
    if c.verb == Verb::Setup {
        vectors::text(b", ");
        print_output(other);
    }
    print_work(work);
}

// The case with its inputs read.
fn run(c: Case, first: &[u8], second: &[u8], third: &[u8]) -> bool {
    let mut out_space = output_room();
    let mut other_space = output_room();
    let mut work_space = work_room();
    let out: &mut [u8] = &mut out_space;
    let other: &mut [u8] = &mut other_space;
    let work: &mut [u16] = &mut work_space;
    let a = c.out;
    let b = c.other;
    let w = c.work;
    if 1024 < a {
        return false;
    }
    if 1024 < b {
        return false;
    }
    if 8192 < w {
        return false;
    }
    show(
        c,
        first,
        second,
        third,
        &mut out[0..a],
        &mut other[0..b],
        &mut work[0..w],
    );
    true
}

fn with_third(c: Case, first: &[u8], second: &[u8]) -> bool {
    let mut space = input_room();
    let s: &mut [u8] = &mut space;
    let n = c.third;
    if 1024 < n {
        return false;
    }
    if !read_bytes(s, n) {
        return false;
    }
    let whole = &s[..];
    run(c, first, second, &whole[0..n])
}

fn with_second(c: Case, first: &[u8]) -> bool {
    let mut space = input_room();
    let s: &mut [u8] = &mut space;
    let n = c.second;
    if 1024 < n {
        return false;
    }
    if !read_bytes(s, n) {
        return false;
    }
    let whole = &s[..];
    with_third(c, first, &whole[0..n])
}

fn with_first(c: Case) -> bool {
    let mut space = input_room();
    let s: &mut [u8] = &mut space;
    let n = c.first;
    if 1024 < n {
        return false;
    }
    if !read_bytes(s, n) {
        return false;
    }
    let whole = &s[..];
    with_second(c, &whole[0..n])
}

// One case more; false where the input ends.
fn one() -> bool {
    let mut head = [0u8; 16];
    if io::read_full(STDIN, &mut head) < 16 {
        return false;
    }
    let c = case_of(&head);
    let n = c.label;
    let mut space = [0u8; 256];
    let label: &mut [u8] = &mut space;
    if !read_bytes(label, n) {
        return false;
    }
    print_first(label, n);
    with_first(c)
}

fn main() {
    for _ in 0..10000 {
        if !one() {
            break;
        }
    }
}

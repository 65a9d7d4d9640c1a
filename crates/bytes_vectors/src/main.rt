//! Packing, shuffling and inverting on the cases of standard input, one line of output each.
//!
//! A case is eight bytes (a kind, a width m, the input's length and the output's length, three bytes each) and the input. Its line
//! holds the kind, the answer's number and the output; of an output of more than a hundred entries, its `mix`.
#![tactic(auto)]

ghost use Rattle.std.specs.Prelude.{◌≡◌, ◌/◌, length};

use lists::Refused;

/// The number of standard input.
const STDIN: i32 = 0;

/// The number of standard output.
const STDOUT: i32 = 1;

/// How long the input of a case may be, and its output.
const INPUT: usize = 65536;

const OUTPUT: usize = 65538;

/// What a case does with its input.
#[derive(Clone, Copy)]
enum Kind {
    Unpack = 0,
    Pack = 1,
    Shuffle = 2,
    Invert = 3,
    ShuffleAndInvert = 4,
}

impl From<u8> for Kind {
    fn from(number: u8) -> Kind {
        match number {
            0 => Kind::Unpack,
            1 => Kind::Pack,
            2 => Kind::Shuffle,
            4 => Kind::ShuffleAndInvert,
            _ => Kind::Invert,
        }
    }
}

#[derive(Clone, Copy)]
struct Case {
    kind: Kind,
    m: usize,
    input: usize,
    output: usize,
}

fn word(n: u64) {
    io::write_all(STDOUT, b" ");
    io::print_decimal(STDOUT, n);
}

fn start(kind: Kind, answer: Result<(), Refused>) {
    io::print_decimal(STDOUT, kind as u64);
    word(u64::from(lists::number(answer)));
    io::write_all(STDOUT, b":");
}

fn end() {
    io::write_all(STDOUT, b"\n");
}

/// The entries as one number in base 31, its last 32 bits.
fn mix(s: &[u16]) -> u32 {
    s.iter().fold(
        0u32,
        |sum, &x| sum.wrapping_mul(31).wrapping_add(u32::from(x)),
    )
}

fn show_numbers(s: &[u16]) {
    if 100 < s.len() {
        word(u64::from(mix(s)));
        return;
    }
    for &x in s {
        word(u64::from(x));
    }
}

fn show_bytes(s: &[u8]) {
    for &x in s {
        word(u64::from(x));
    }
}

fn unpack_case(m: usize, input: &[u8], out: &mut [u16]) {
    out.fill(0);
    start(Kind::Unpack, bits::unpack_call(m, input, out));
    show_numbers(out);
    end();
}

fn pack_case(m: usize, input: &[u8], list: &mut [u16], out: &mut [u8])
    requires { length list.old ≡ length input.now / 2 }
{
    bits::get_numbers(input, list);
    out.fill(0);
    start(Kind::Pack, bits::pack_call(m, list, out));
    show_bytes(out);
    end();
}

fn shuffle_case(input: &[u8], list: &mut [u16]) {
    list.fill(0);
    start(Kind::Shuffle, perm::shuffle_call(input, list));
    show_numbers(list);
    end();
}

fn invert_case(input: &[u8], list: &mut [u16], out: &mut [u16])
    requires { length list.old ≡ length input.now / 2 }
{
    bits::get_numbers(input, list);
    out.fill(0);
    start(Kind::Invert, perm::invert_call(list, out));
    show_numbers(out);
    end();
}

fn both_case(input: &[u8], list: &mut [u16], out: &mut [u16]) {
    list.fill(0);
    let _shuffled = perm::shuffle_call(input, list);
    out.fill(0);
    start(Kind::ShuffleAndInvert, perm::invert_call(list, out));
    show_numbers(out);
    end();
}

/// The number of three bytes.
fn three(a: u8, b: u8, c: u8) -> usize {
    u32::from_be_bytes([0, a, b, c]) as usize
}

/// The head of the next case, if there is one.
fn next_case() -> Option<Case> {
    let mut head = [0u8; 8];
    if io::read_full(STDIN, &mut head) < head.len() {
        return None;
    }
    let [kind, m, a, b, c, d, e, f] = head;
    Some(Case {
        kind: Kind::from(kind),
        m: usize::from(m),
        input: three(a, b, c),
        output: three(d, e, f),
    })
}

/// Reads the input of a case and runs it; false where a length is too large or the input ends before.
fn run(
    case: Case,
    input: &mut [u8; INPUT],
    list: &mut [u16; OUTPUT],
    out: &mut [u16; OUTPUT],
    bytes: &mut [u8; OUTPUT],
) -> bool {
    if INPUT < case.input || OUTPUT < case.output {
        return false;
    }
    let input = &mut input[..case.input];
    if io::read_full(STDIN, input) < case.input {
        return false;
    }
    let numbers = case.input / 2;
    let out = &mut out[..case.output];
    match case.kind {
        Kind::Unpack => unpack_case(case.m, input, out),
        Kind::Pack => pack_case(
            case.m,
            input,
            &mut list[..numbers],
            &mut bytes[..case.output],
        ),
        Kind::Shuffle => shuffle_case(input, out),
        Kind::Invert => invert_case(input, &mut list[..numbers], out),
        Kind::ShuffleAndInvert => both_case(input, &mut list[..case.output], out),
    }
    true
}

fn main() {
    let mut input = [0u8; INPUT];
    let mut list = [0u16; OUTPUT];
    let mut out = [0u16; OUTPUT];
    let mut bytes = [0u8; OUTPUT];
    for _ in 0..1000000 {
        let Some(case) = next_case() else {
            break;
        };
        if !run(case, &mut input, &mut list, &mut out, &mut bytes) {
            break;
        }
    }
}

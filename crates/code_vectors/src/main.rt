//! Decodes words that are some places away from a code word, and prints what comes out: a line for each, with the code's
//! n and t, the number of places struck, and the word, or that none is near.
#![tactic(auto)]

ghost use Rattle.std.specs.Prelude.{◌≡◌, ℕ, ◌+◌, ◌≤◌, ◌<◌, length, get_or};

use decoder::decoded;

/// The number of standard output.
const STDOUT: i32 = 1;

/// The next of a run of numbers that look random.
fn next(x: u32) -> u32
    ensures { result < 65537 }
{
    ((x % 65537) * 75 + 74) % 65537
}

/// A field element from such a number.
fn element(x: u32) -> u16 {
    (x % 1024) as u16
}

/// One of n places from such a number.
fn place(x: u32, n: usize) -> usize
    requires { 0 < n }
    ensures { result < n }
{
    (x as usize) % n
}

/// A code word comes to the front of the area: the sum of multiples of the generator's shifts.
fn code_word(area: &mut [u16], n: usize, s: usize, seed: u32) -> u32
    requires room { n + (s + 1) ≤ length area.old }
    requires short { s < n }
{
    area.fill(0);
    let end = n + (s + 1);
    code::generator(&mut area[n..end]);
    let mut x = seed;
    for i in 0..n - s {
        x = next(x);
        gf::add_run(area, i, n, s + 1, element(x));
    }
    x
}

/// Strikes one place.
fn strike(area: &mut [u16], p: usize, v: u16)
    requires { p < length area.old }
{
    area[p] ^= v;
}

/// Strikes e places of the n at the front, the same one twice perhaps.
fn spoil(area: &mut [u16], n: usize, e: usize, seed: u32)
    requires some { 0 < n }
    requires room { n ≤ length area.old }
{
    let mut x = seed;
    for _ in 0..e {
        x = next(x);
        let p = place(x, n);
        x = next(x);
        strike(area, p, element(x));
    }
}

/// The numbers of a word, a blank before each.
fn print_word(word: &[u16]) {
    for &x in word {
        io::write_all(STDOUT, b" ");
        io::print_decimal(STDOUT, u64::from(x));
    }
}

fn print_number(x: usize) {
    io::print_decimal(STDOUT, x as u64);
    io::write_all(STDOUT, b" ");
}

/// One case: a code word, e places struck, decoded and printed.
fn case(area: &mut [u16], work: &mut [u16], n: usize, t: usize, e: usize)
    requires room { n + (t + t + 1) ≤ length area.old }
    requires short { t + t < n }
{
    let x = code_word(area, n, t + t, 4660);
    spoil(area, n, e, x);
    print_number(n);
    print_number(t);
    print_number(e);
    let word = &mut area[0..n];
    let Ok(()) = decoded(word, t, work) else {
        io::write_all(STDOUT, b"none\n");
        return;
    };
    io::write_all(STDOUT, b"word");
    print_word(word);
    io::write_all(STDOUT, b"\n");
}

/// All cases of a code: from no place struck to `most`.
fn cases(area: &mut [u16], work: &mut [u16], n: usize, t: usize, most: usize)
    requires room { n + (t + t + 1) ≤ length area.old }
    requires short { t + t < n }
{
    for e in 0..most {
        case(area, work, n, t, e);
    }
}

/// The three codes, in lent slices.
fn run(area: &mut [u16], work: &mut [u16])
    requires { length area.old ≡ 128 }
{
    cases(area, work, 40, 10, 16);
    cases(area, work, 20, 3, 8);
    cases(area, work, 100, 8, 12);
}

fn main() {
    let mut area = [0u16; 128];
    let mut work = [0u16; 1024];
    run(&mut area, &mut work);
}

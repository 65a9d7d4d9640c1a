//! The elements of a stored byte string, for each width of 1 to 16 bits: a line of those that are read one after the other, to past
//! the last bit, and a line of nine that are read at once from bit 3 on, with the place after them.
#![tactic(auto)]

ghost use Rattle.std.specs.Prelude.{◌+◌, ◌*◌, ◌<◌, ◌≤◌, ◌^◌, length};

/// The number of standard output.
const STDOUT: i32 = 1;

fn word(n: u64) {
    io::write_all(STDOUT, b" ");
    io::print_decimal(STDOUT, n);
}

fn show(s: &[u16]) {
    for &x in s {
        word(u64::from(x));
    }
}

fn one_by_one(bytes: &[u8], m: usize)
    requires some { 0 < m }
    requires narrow { m ≤ 16 }
    requires short { length bytes.now < 2 ^ 32 }
{
    for bit in (0..8 * bytes.len()).step_by(m) {
        word(u64::from(reader::element(bytes, m, bit)));
    }
    io::write_all(STDOUT, b"\n");
}

fn at_once(bytes: &[u8], m: usize, out: &mut [u16])
    requires narrow { m ≤ 16 }
    requires inside { 3 + m * length out.old ≤ 8 * length bytes.now }
    requires short { length bytes.now < 2 ^ 32 }
{
    let end = reader::elements(bytes, m, 3, out);
    show(out);
    io::write_all(STDOUT, b" to");
    word(end as u64);
    io::write_all(STDOUT, b"\n");
}

fn both(bytes: &[u8], m: usize)
    requires some { 0 < m }
    requires narrow { m ≤ 16 }
    requires long { 20 ≤ length bytes.now }
    requires short { length bytes.now < 2 ^ 32 }
{
    let mut out = [0u16; 9];
    one_by_one(bytes, m);
    at_once(bytes, m, &mut out);
}

fn main() {
    let bytes = [
        255u8, 192, 1, 0, 64, 32, 90, 165, 60, 195, 17, 34, 68, 136, 1, 128, 254, 127, 99, 7,
    ];
    for m in 1..=16 {
        both(&bytes, m);
    }
}

//! What test programs share: a pattern of bytes to work on, and lines on standard output.
#![tactic(auto)]

/// The number of standard output.
const STDOUT: i32 = 1;

/// Byte i becomes i mod 251.
pub fn pattern(s: &mut [u8]) {
    for (i, x) in s.iter_mut().enumerate() {
        *x = (i % 251) as u8;
    }
}

pub fn text(s: &[u8]) {
    io::write_all(STDOUT, s);
}

/// A number, and a blank.
pub fn number(n: usize) {
    io::print_decimal(STDOUT, n as u64);
    text(b" ");
}

/// Two hexadecimal digits a byte.
pub fn hex(s: &[u8]) {
    for &b in s {
        io::print_hex(STDOUT, u64::from(b), 2);
    }
}

/// The same, and the line's end.
pub fn line(s: &[u8]) {
    hex(s);
    text(b"\n");
}

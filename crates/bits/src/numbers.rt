//! 16-bit numbers in a byte string, the high byte first.
ghost use Rattle.std.specs.Prelude.{◌≡◌, ◌+◌, ◌*◌, ◌/◌, ◌%◌, ◌<◌, ◌^◌, length, set};
ghost use Rattle.bits.specs.Numbers.{number16, numbers16, bytes16};

/// Number i.
pub fn number_at(s: &[u8], i: usize) -> usize
    requires { 2 * i + 1 < length s.now }
    ensures number { result ≡ number16 s.now i }
    ensures small { result < 2 ^ 16 }
{
    usize::from(u16::from_be_bytes([s[2 * i], s[2 * i + 1]]))
}

/// Number i becomes x.
pub fn put_number(s: &mut [u8], i: usize, x: u16)
    requires { 2 * i + 1 < length s.old }
    ensures { s.new ≡ set (set s.old (2 * i) (x / 256 % 256)) (2 * i + 1) (x % 256) }
{
    let bytes = x.to_be_bytes();
    s[2 * i] = bytes[0];
    s[2 * i + 1] = bytes[1];
}

/// All numbers of a byte string.
#[tactic(auto, using(lists::proofs::Tables::tab_of), unfolding(crate::specs::Numbers::numbers16))]
pub fn get_numbers(s: &[u8], out: &mut [u16])
    requires { length out.old ≡ length s.now / 2 }
    ensures { out.new ≡ numbers16 s.now }
{
    for (i, x) in out.iter_mut().enumerate() {
        *x = number_at(s, i) as u16;
    }
}

/// All numbers of a list as bytes.
#[tactic(auto, using(crate::proofs::Sixteen::bytes16_of))]
pub fn put_numbers(s: &[u16], out: &mut [u8])
    requires { length out.old ≡ 2 * length s.now }
    ensures { out.new ≡ bytes16 s.now }
{
    for (i, &x) in s.iter().enumerate() {
        put_number(out, i, x);
    }
}

//! Products of polynomials by their roots.
ghost use Rattle.std.specs.Prelude.{◌≡◌, ◌<◌, length};
ghost use Rattle.gf.specs.Ten.{ten};
ghost use Rattle.code.specs.Generator.{TimesRoot};

/// The polynomial with these coefficients, of which the last is 0, times (x - a).
pub fn times_root(out: &mut [u16], a: u16)
    requires some { 0 < length out.old }
    ensures { TimesRoot ten a out.old out.new }
{
    for j in (1..out.len()).rev() {
        out[j] = out[j - 1] ^ gf::product(a, out[j]);
    }
    out[0] = gf::product(a, out[0]);
}

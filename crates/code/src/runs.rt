//! Numbers from one part of the work area to another.
ghost use Rattle.std.specs.Prelude.{◌≡◌, length};

/// The numbers of `from`, to `to`. Kept as a loop: the slice's own `copy_from_slice` calls `memmove`, a name that an archive of decoding then
/// needs from outside.
pub fn copy(from: &[u16], to: &mut [u16])
    requires same { length to.old ≡ length from.now }
    ensures { to.new ≡ from.now }
{
    for i in 0..from.len() {
        to[i] = from[i];
    }
}

//! Whether an entry of a list stands twice, for the entries of a window of 4096 values at a time, so that the room on the stack is small.
ghost use Rattle.std.specs.Prelude.{◌≡◌, ◌<◌, ◌≤◌, length, get_or};
ghost use Rattle.bits.specs.Bits.{Decided};
ghost use Rattle.perm.specs.Window.{slot_of, written, Kept, Once};

/// How many values a window has.
pub const WINDOW: usize = 4096;

/// The slot of a value in window b; WINDOW for a value of another window.
fn slot(b: usize, v: u16) -> usize
    ensures slot { result ≡ slot_of b v }
    ensures low { result ≤ 4096 }
{
    let v = usize::from(v);
    if v / WINDOW == b { v % WINDOW } else { WINDOW }
}

/// Each place is written to the slot of its entry.
#[tactic(auto, using(lists::proofs::Loops::turning), unfolding(crate::specs::Window::written))]
fn write_in(p: &[u16], b: usize, q: &mut [u16])
    requires slots { length q.old ≡ 4097 }
    requires short { length p.now ≤ 65536 }
    ensures { q.new ≡ written b p.now q.old }
{
    for (i, &x) in p.iter().enumerate() {
        q[slot(b, x)] = i as u16;
    }
}

/// Whether each place whose entry is in the window still stands in the slot of that entry.
fn kept(p: &[u16], b: usize, q: &[u16]) -> bool
    requires { length q.now ≡ 4097 }
    ensures { Decided result (Kept b p.now q.now) }
{
    for (i, &x) in p.iter().enumerate() {
        let k = slot(b, x);
        if k < WINDOW && usize::from(q[k]) != i {
            return false;
        }
    }
    true
}

/// Whether each entry in window b stands once.
pub fn once_in(p: &[u16], b: usize) -> bool
    requires { length p.now ≤ 65536 }
    ensures { Decided result (Once b p.now) }
{
    let mut q = [0u16; WINDOW + 1];
    write_in(p, b, &mut q);
    kept(p, b, &q)
}

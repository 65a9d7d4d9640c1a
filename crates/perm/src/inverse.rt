//! The inverse of a permutation, and the test whether a list is one.
ghost use Rattle.std.specs.Prelude.{◌≡◌, ◌<◌, ◌≤◌, ◌/◌, length};
ghost use Rattle.bits.specs.Bits.{Decided};
ghost use Rattle.bits.specs.Numbers.{numbers16};
ghost use Rattle.perm.specs.Perm.{Places, Perm, Undoes, Inverts, inverted};

use super::entries::{Entries, Numbers};
use super::window::{WINDOW, once_in};

/// Whether each entry is below the length.
fn places<P: Entries>(p: P) -> bool
    ensures { Decided result (Places (P.list p)) }
{
    let u = p.count();
    for i in 0..u {
        if u <= p.entry(i) {
            return false;
        }
    }
    true
}

/// q[p[i]] = i for each place i.
#[tactic(auto, using(lists::proofs::Loops::turning), unfolding(crate::specs::Perm::inverted))]
pub(crate) fn write<P: Entries>(p: P, q: &mut [u16])
    requires long { length q.old ≡ length (P.list p) }
    requires short { length (P.list p) ≤ 65536 }
    requires low { Places (P.list p) }
    ensures { q.new ≡ inverted (P.list p) q.old }
{
    for i in 0..p.count() {
        q[p.entry(i)] = i as u16;
    }
}

/// Whether q[p[i]] is i for each place i.
fn undoes<P: Entries>(p: P, q: &[u16]) -> bool
    requires long { length q.now ≡ length (P.list p) }
    requires low { Places (P.list p) }
    ensures { Decided result (Undoes (P.list p) q.now) }
{
    for i in 0..p.count() {
        if usize::from(q[p.entry(i)]) != i {
            return false;
        }
    }
    true
}

/// The inverse of p is written to q, and true is answered; false where p is no permutation, when q holds anything.
#[tactic(auto, using(crate::proofs::Inverting::inverts))]
fn invert_entries<P: Entries>(p: P, q: &mut [u16]) -> bool
    requires long { length q.old ≡ length (P.list p) }
    requires short { length (P.list p) ≤ 65536 }
    ensures { Inverts (P.list p) result q.new }
{
    if !places(p) {
        return false;
    }
    write(p, q);
    undoes(p, q)
}

/// The inverse of p is written to q, and true is answered; false where p is no permutation, when q holds anything.
pub fn invert(p: &[u16], q: &mut [u16]) -> bool
    requires { length q.old ≡ length p.now }
    ensures { Inverts p.now result q.new }
{
    p.len() <= 65536 && invert_entries(p, q)
}

/// The same of the 16-bit numbers of a byte string, each read where it stands: they are copied nowhere.
#[tactic(auto, using(crate::proofs::Inverting::reading))]
pub fn invert_numbers(bytes: &[u8], q: &mut [u16]) -> bool
    requires { length q.old ≡ length bytes.now / 2 }
    ensures { Inverts (numbers16 bytes.now) result q.new }
{
    q.len() <= 65536 && invert_entries(Numbers { bytes }, q)
}

/// Whether p is a permutation: its entries are places, and in no window does one stand twice.
pub fn is_permutation(p: &[u16]) -> bool
    ensures { Decided result (Perm p.now) }
{
    if 65536 < p.len() || !places(p) {
        return false;
    }
    for b in 0..p.len().div_ceil(WINDOW) {
        if !once_in(p, b) {
            return false;
        }
    }
    true
}

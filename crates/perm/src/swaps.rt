//! The shuffle: swaps that 16-bit numbers choose.
ghost use Rattle.std.specs.Prelude.{◌≡◌, ◌/◌, ◌<◌, ◌≤◌, length};
ghost use Rattle.perm.specs.Shuffle.{identity, swapped, shuffled};

/// 0, 1, ..
#[tactic(auto, using(lists::proofs::Tables::tab_of), unfolding(crate::specs::Shuffle::identity))]
fn count_up(p: &mut [u16])
    requires { length p.old ≤ 65536 }
    ensures { p.new ≡ identity (length p.old) }
{
    for (i, x) in p.iter_mut().enumerate() {
        *x = i as u16;
    }
}

/// Entries i and j are swapped. Kept by hand: the slice's `swap` jumps where i is j, which depends on secrets, and a shuffle by it takes a
/// fifth longer.
#[tactic(auto, unfolding(crate::specs::Shuffle::swapped))]
fn swap(p: &mut [u16], i: usize, j: usize)
    requires i_within { i < length p.old }
    requires j_within { j < length p.old }
    ensures { p.new ≡ swapped p.old i j }
{
    let entry = p[i];
    p[i] = p[j];
    p[j] = entry;
}

/// The list becomes 0, 1, .. shuffled by all 16-bit numbers of the bytes.
#[tactic(auto, using(lists::proofs::Loops::turning), unfolding(crate::specs::Shuffle::shuffled))]
pub fn shuffle(bytes: &[u8], p: &mut [u16])
    requires few { length bytes.now / 2 ≤ length p.old }
    requires short { length p.old ≤ 65536 }
    ensures { p.new ≡ shuffled bytes.now (length p.old) (length bytes.now / 2) }
{
    let u = p.len();
    count_up(p);
    for i in 0..bytes.len() / 2 {
        let j = i + bits::number_at(bytes, i) % (u - i);
        swap(p, i, j);
    }
}

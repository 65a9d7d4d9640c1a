//! A vector of the kernel of a matrix with more columns than rows.
ghost use Rattle.std.specs.Prelude.{◌≡◌, ◌+◌, ◌*◌, ◌<◌, ◌≤◌, length};
ghost use Rattle.lists.specs.Loops.{tab};
ghost use Rattle.gf.specs.Ten.{ten};
ghost use Rattle.linear.specs.Matrix.{Matrix};
ghost use Rattle.linear.specs.Elimination.{eliminated};
ghost use Rattle.linear.specs.Kernel.{kernel_at, Kernel};

use crate::{at, eliminate};

// The vector's element at place j, with r columns done.
fn kernel_at(m: &[u16], cols: usize, r: usize, j: usize) -> u16
    requires fits { r * cols ≤ length m.now }
    requires column { r < cols }
    ensures { result ≡ kernel_at cols r m.now j }
{
    if j < r {
        at(m, cols, j, r)
    } else if j == r {
        1
    } else {
        0
    }
}

// The whole vector.
fn read_kernel(m: &[u16], cols: usize, r: usize, v: &mut [u16])
    requires fits { r * cols ≤ length m.now }
    requires column { r < cols }
    requires whole { cols ≡ length v.old }
    ensures { v.new ≡ tab cols (kernel_at cols r m.now) }
{
    for j in 0..v.len() {
        v[j] = kernel_at(m, cols, r, j);
    }
}

/// Eliminates the matrix and writes a vector of its kernel. Answers how many columns are done: there the vector is 1.
pub fn kernel_vector(m: &mut [u16], rows: usize, cols: usize, v: &mut [u16]) -> usize
    requires matrix { Matrix ten rows cols m.old }
    requires wide { rows < cols }
    requires small { rows < 65536 }
    requires whole { cols ≡ length v.old }
    ensures { Kernel cols (eliminated ten rows cols rows m.old) m.new v.new result }
{
    let done = eliminate(m, rows, cols, rows).cols;
    read_kernel(m, cols, done, v);
    done
}

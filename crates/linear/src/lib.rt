//! Linear algebra over the field, on matrices that lie row after row in a lent slice: elimination, the inverse of a
//! square matrix, a vector of the kernel.
//!
//! Kept as a slice with `rows` and `cols` beside it, and no struct of the three: a method with `&mut self` may leave other numbers of rows
//! and columns, so each step would have to say, one clause more, that they stay.
#![tactic(auto)]

ghost use Rattle.std.specs.Prelude.{◌≡◌, ◌≢◌, ◌+◌, ◌*◌, ◌<◌, ◌≤◌, length, IfSome, IfNone};
ghost use Rattle.gf.specs.Ten.{ten};
ghost use Rattle.linear.specs.Matrix.{Matrix, entry, swap_run};
ghost use Rattle.linear.specs.Elimination.{Did, Ended, pivot_row, place_pivot, scale_pivot, clear_row, clear_column, reduce_column, eliminated};
ghost use Rattle.linear.specs.Columns.{Lead, Spared, Cleared, Reduced};

pub mod inverse;
pub mod kernel;

// Exchanges the n elements from a on with those from b on.
fn swap_runs(m: &mut [u16], a: usize, b: usize, n: usize)
    requires a_fits { a + n ≤ length m.old }
    requires b_fits { b + n ≤ length m.old }
    ensures { m.new ≡ swap_run a b n m.old }
{
    for k in 0..n {
        m.swap(a + k, b + k);
    }
}

// The entry at row i, column j.
fn at(m: &[u16], cols: usize, i: usize, j: usize) -> u16
    requires within { i * cols + j < length m.now }
    ensures { result ≡ entry cols m.now i j }
{
    m[i * cols + j]
}

// The first row from c down with a non-zero entry in column c.
fn find_pivot(m: &[u16], rows: usize, cols: usize, c: usize) -> Option<usize>
    requires fits { rows * cols ≤ length m.now }
    requires column { c < cols }
    requires row { c ≤ rows }
    ensures found { IfSome result (λ p. p ≡ pivot_row rows cols c m.now) }
    ensures from { IfSome result (λ p. c ≤ p) }
    ensures usable { IfSome result (λ p. p < rows) }
    ensures none { IfNone result (rows ≡ pivot_row rows cols c m.now) }
{
    for i in c..rows {
        if at(m, cols, i, c) != 0 {
            return Some(i);
        }
    }
    None
}

// Brings row p to row c, unless it is there. Answers the number of row operations.
fn place_pivot(m: &mut [u16], cols: usize, p: usize, c: usize) -> usize
    requires p_fits { p * cols + cols ≤ length m.old }
    requires c_fits { c * cols + cols ≤ length m.old }
    ensures { Did (place_pivot cols p c m.old) 1 m.new result }
{
    if p == c {
        return 0;
    }
    swap_runs(m, p * cols, c * cols, cols);
    1
}

// Scales row c so that its pivot is 1, unless it is. The row is zero before column c, so the work begins there.
fn scale_pivot(m: &mut [u16], cols: usize, c: usize) -> usize
    requires fits { c * cols + cols ≤ length m.old }
    requires column { c < cols }
    requires lead { Lead cols c m.old }
    ensures did { Did (scale_pivot ten cols c m.old) 1 m.new result }
    ensures lead { Lead cols c m.new }
{
    let x = at(m, cols, c, c);
    if x == 1 {
        return 0;
    }
    gf::scale_run(m, c * cols + c, cols - c, gf::reciprocal(x));
    1
}

// Where a run to the end of row c begins: at column c, or up to 7 columns before it, so that 8 divides its length.
fn run_start(cols: usize, c: usize) -> usize
    requires column { c < cols }
    ensures { result ≤ c }
{
    let back = (8 - (cols - c) % 8) % 8;
    if c < back {
        return c;
    }
    c - back
}

// Clears column c of row i, unless the entry is 0. Row c is zero before column c, so the work may begin at any column b up to c.
fn clear_row(m: &mut [u16], cols: usize, c: usize, b: usize, i: usize) -> usize
    requires i_fits { i * cols + cols ≤ length m.old }
    requires c_fits { c * cols + cols ≤ length m.old }
    requires column { c < cols }
    requires begins { b ≤ c }
    requires other { i ≢ c }
    requires lead { Lead cols c m.old }
    ensures { Did (clear_row ten cols c i m.old) 1 m.new result }
{
    let x = at(m, cols, i, c);
    if x == 0 {
        return 0;
    }
    gf::add_run(m, i * cols + b, c * cols + b, cols - b, x);
    1
}

// Clears column c of the rows from `from` up to `to`, of which c is none, after `ops` row operations. Answers how many there are then.
fn clear_rows(m: &mut [u16], cols: usize, c: usize, from: usize, to: usize, ops: usize) -> usize
    requires fits { to * cols ≤ length m.old }
    requires c_fits { c * cols + cols ≤ length m.old }
    requires column { c < cols }
    requires order { from ≤ to }
    requires few { ops ≤ from }
    requires spared { Spared c from to }
    requires lead { Lead cols c m.old }
    ensures { Cleared ten cols c from to m.old ops m.new result }
{
    let b = run_start(cols, c);
    let mut count = ops;
    for i in from..to {
        count += clear_row(m, cols, c, b, i);
    }
    count
}

// Clears column c of every row but c. The rows before it and those after it have loops of their own: in one loop over all rows the
// compiler would find row c, which is read, among those that are written, and would use no vectors.
fn clear_column(m: &mut [u16], rows: usize, cols: usize, c: usize) -> usize
    requires fits { rows * cols ≤ length m.old }
    requires row { c < rows }
    requires column { c < cols }
    requires lead { Lead cols c m.old }
    ensures { Did (clear_column ten rows cols c m.old) rows m.new result }
{
    let ops = clear_rows(m, cols, c, 0, c, 0);
    clear_rows(m, cols, c, c + 1, rows, ops)
}

// Column c, whose first usable row is p.
fn reduce_column(m: &mut [u16], rows: usize, cols: usize, c: usize, p: usize) -> usize
    requires reduced { Reduced ten rows cols c m.old }
    requires from { c ≤ p }
    requires usable { p < rows }
    requires row { c < rows }
    requires column { c < cols }
    requires small { rows < 65536 }
    ensures { Did (reduce_column ten rows cols c p m.old) (rows + 2) m.new result }
{
    let a = place_pivot(m, cols, p, c);
    let b = scale_pivot(m, cols, c);
    let d = clear_column(m, rows, cols, c);
    a + b + d
}

/// How many columns are done, and how many row operations it took.
#[derive(Clone, Copy)]
pub struct Outcome {
    pub cols: usize,
    pub ops: usize,
}

/// Eliminates `limit` columns, or those before the first without a usable row.
pub fn eliminate(m: &mut [u16], rows: usize, cols: usize, limit: usize) -> Outcome
    requires matrix { Matrix ten rows cols m.old }
    requires in_rows { limit ≤ rows }
    requires in_cols { limit ≤ cols }
    requires small { rows < 65536 }
    ensures { Ended (eliminated ten rows cols limit m.old) limit m.new result.cols result.ops }
{
    let mut ops = 0;
    for c in 0..limit {
        let Some(p) = find_pivot(m, rows, cols, c) else {
            return Outcome { cols: c, ops };
        };
        ops += reduce_column(m, rows, cols, c, p);
    }
    Outcome { cols: limit, ops }
}

// Gauss-Jordan elimination, after sage's gauss.rs (document 01, module 2), with the Rust's names in the Rust's order
// and each helper after its user. Inside, a system is a table of twenty rows of twenty-one numbers, the last of a row
// its right-hand number; outside its two sides are two arguments, as in the Rust. Arrays have a fixed size, since the
// library takes no memory. Rows and columns are plain numbers: types for them would say no more than `i < 20`.
// `inline(never)` stands where the compiler, with more in one function, copies the table between stages (D42).
#![tactic(auto)]

ghost use Rattle.std.specs.Prelude.{◌≡◌, ◌≤◌, ◌<◌};
ghost use Rattle.gauss.specs.Elimination.{swapped, diagonal_filled, left_solved, solved_at, echeloned, pivot_row};
ghost use Rattle.gauss.specs.Elimination.{cleared_below, reduced, cleared_above, backfilled};
ghost use Rattle.gauss.specs.Inner.Rows.{row_joined, subtracted, divided};
ghost use Rattle.gauss.specs.Solutions.{joined, values, attempt, solution, solved_values};

use columns::{HasBlank, Refusal};

// A system inside: its rows, each with its right-hand number.
type Table = [[f64; 21]; 20];

// How many rows and columns of a table a system has.
#[derive(Clone, Copy)]
struct Size {
    rows: usize,
    ghost in_table: { rows ≤ 20 },
}

// The pivot pair: a row, and its entry in the pivot's column.
#[derive(Clone, Copy)]
struct Pivot {
    row: usize,
    value: f64,
}

// Rows i and j change places. Where they are one, nothing is moved: by std's `swap` alone a system of twenty takes 4%
// longer to solve.
fn swap_rows(m: &mut Table, i: usize, j: usize)
    requires { (i < 20) × (j < 20) }
    ensures { m.new ≡ swapped i j m.old }
{
    if i != j {
        m.swap(i, j);
    }
}

// One try, with eps on the diagonal.
fn solve_inner(
    left: &[[f64; 20]; 20],
    right: &[f64; 20],
    size: Size,
    eps: f64,
) -> Result<[f64; 20], Refusal>
    ensures { result ≡ attempt size.rows eps (joined left.now right.now size.rows) }
{
    let upper = upper_form(left, right, size, eps);
    let ones = reduce(upper, size);
    let done = backfill(ones, size);
    if left_solved(&done, size) {
        return Ok(answers(&done, size));
    }
    Err(Refusal::Unsolved)
}

// The table of the system after the first two stages, a function of its own so that the compiler makes one table of all
// that the stages take and return (D42).
fn upper_form(left: &[[f64; 20]; 20], right: &[f64; 20], size: Size, eps: f64) -> Table
    ensures { let system = joined left.now right.now size.rows in
        result ≡ echeloned size.rows (diagonal_filled size.rows eps system) }
{
    let system = join(left, right, size);
    let filled = fill_zero(system, size, eps);
    echelon(filled, size)
}

// The right-hand numbers, and 0 past the size.
#[inline(never)]
fn answers(m: &Table, size: Size) -> [f64; 20]
    ensures { result ≡ values size.rows m.now }
{
    let mut out = [0.0; 20];
    for (i, row) in m[..size.rows].iter().enumerate() {
        out[i] = row[20];
    }
    out
}

// The answer at the first eps that solves the system: 1E-8, then ten times the last, rounded, while it is at most 1;
// each try starts from the system itself. Entries past the size are not read.
pub fn solve(left: [[f64; 20]; 20], right: [f64; 20], size: usize) -> Result<[f64; 20], Refusal>
    ensures { result ≡ solution left right size }
{
    solve_at(&left, &right, size)
}

// The twenty numbers of an answer, as C gets them: NaN in every place where a call refuses.
pub fn solved_values(answer: Result<[f64; 20], Refusal>) -> [f64; 20]
    ensures { result ≡ solved_values answer }
{
    answer.unwrap_or([f64::blank(); 20])
}

// That, of a system that is read where it is, without a copy. Question 3 is asked here, by two tests: asked by one, or
// by a function of its own, it makes the compiler copy tables more often.
// A `while`: no index counts the tries.
#[tactic(auto, using(crate::proofs::Solving::out_of_range))]
pub fn solve_at(
    left: &[[f64; 20]; 20],
    right: &[f64; 20],
    size: usize,
) -> Result<[f64; 20], Refusal>
    ensures { result ≡ solution left.now right.now size }
{
    if size == 0 {
        return Err(Refusal::OutOfRange);
    }
    if 20 < size {
        return Err(Refusal::OutOfRange);
    }
    let size = Size { rows: size };
    let mut eps = 1E-8;
    while eps <= 1.0 {
        let attempt = solve_inner(left, right, size, eps);
        if attempt.is_ok() {
            return attempt;
        }
        eps *= 10.0;
    }
    Err(Refusal::Unsolved)
}

// The table of a system: each row of `left` up to the size, with its number of `right`.
fn join(left: &[[f64; 20]; 20], right: &[f64; 20], size: Size) -> Table
    ensures { result ≡ joined left.now right.now size.rows }
{
    let mut m = [[0.0; 21]; 20];
    for (i, row) in m[..size.rows].iter_mut().enumerate() {
        join_row(row, &left[i], right[i], size);
    }
    m
}

// A row of the table, with its right-hand number.
fn join_row(row: &mut [f64; 21], left: &[f64; 20], right: f64, size: Size)
    ensures { row.new ≡ row_joined left.now right size.rows row.old }
{
    row[..size.rows].copy_from_slice(&left[..size.rows]);
    row[20] = right;
}

// By index: row and column are one number.
fn fill_zero(mut m: Table, size: Size, eps: f64) -> Table
    ensures { result ≡ diagonal_filled size.rows eps m }
{
    for i in 0..size.rows {
        m[i][i] += eps;
    }
    m
}

// Is each diagonal entry 1 or 0, and no other above 1E-8?
#[inline(never)]
fn left_solved(m: &Table, size: Size) -> bool
    ensures { result ≡ left_solved size.rows m.now }
{
    for (i, row) in m[..size.rows].iter().enumerate() {
        for (j, x) in row[..size.rows].iter().enumerate() {
            if !entry_solved(*x, i == j) {
                return false;
            }
        }
    }
    true
}

fn entry_solved(x: f64, diagonal: bool) -> bool
    ensures { result ≡ solved_at diagonal x }
{
    if diagonal {
        (x == 1.0) | (x == 0.0)
    } else {
        !(x > 1E-8)
    }
}

// h counts the pivots found, so it is at most k, and the columns end the walk. By index: k is no row, but a column of
// every row, and the steps of a turn take its number.
fn echelon(mut m: Table, size: Size) -> Table
    ensures { result ≡ echeloned size.rows m }
{
    let mut h = 0;
    for k in 0..size.rows {
        let i = pivot_row(&m, size, h, k);
        if m[i][k] == 0.0 {
            continue;
        }
        swap_rows(&mut m, h, i);
        clear_below(&mut m, size, h, k);
        h += 1;
    }
    m
}

// The row with the largest entry of column k from row h down, the last among equals; row 0 where none is at least
// f64::MIN.
#[inline(never)]
fn pivot_row(m: &Table, size: Size, h: usize, k: usize) -> usize
    requires { (h < size.rows) × (k < size.rows) }
    ensures { (result ≡ pivot_row size.rows h k m.now) × (result < size.rows) }
{
    let mut max = Pivot {
        row: 0,
        value: f64::MIN,
    };
    // a loop whose break yields the row: so this project writes the search
    let mut i = h;
    loop {
        if size.rows <= i {
            break max.row;
        }
        let x = m[i][k];
        let row = i;
        i += 1;
        if x >= max.value {
            max = Pivot { row, value: x };
        }
    }
}

// Clears column k below the pivot row h, which is copied once.
#[inline(never)]
fn clear_below(m: &mut Table, size: Size, h: usize, k: usize)
    requires { (h < size.rows) × (k < size.rows) }
    ensures { m.new ≡ cleared_below size.rows h k m.old }
{
    let p = m[h];
    for row in &mut m[h + 1..size.rows] {
        let factor = row[k] / p[k];
        row[k] = 0.0;
        subtract(row, &p, size, k + 1, factor);
    }
}

// Takes factor times the row p from a row, from column j on, and from its right-hand number. By index: what is written
// behind `iter_mut().zip()` is not known to a proof, and over `iter_mut().enumerate()` a system of twenty takes 3 to 4%
// longer to solve.
fn subtract(row: &mut [f64; 21], p: &[f64; 21], size: Size, j: usize, factor: f64)
    requires { j ≤ size.rows }
    ensures { row.new ≡ subtracted p.now size.rows j factor row.old }
{
    for c in j..size.rows {
        row[c] -= p[c] * factor;
    }
    row[20] -= p[20] * factor;
}

// Each row is divided by its first nonzero entry. Nested loops left by a label: so this project writes such walks. By
// index: the row is changed within the walk along it.
fn reduce(mut m: Table, size: Size) -> Table
    ensures { result ≡ reduced size.rows m }
{
    'rows: for i in (0..size.rows).rev() {
        for j in 0..size.rows {
            let x = m[i][j];
            if x == 0.0 {
                continue;
            }
            divide(&mut m[i], size, j, x);
            continue 'rows;
        }
    }
    m
}

// Divides a row by x, from column j on, and its right-hand number.
fn divide(row: &mut [f64; 21], size: Size, j: usize, x: f64)
    requires { j ≤ size.rows }
    ensures { row.new ≡ divided size.rows j x row.old }
{
    for y in &mut row[j..size.rows] {
        *y /= x;
    }
    row[20] /= x;
}

// Solves the upper triangular matrix: the column of each row's first nonzero entry is cleared above it, in a walk like
// that of `reduce`.
fn backfill(mut m: Table, size: Size) -> Table
    ensures { result ≡ backfilled size.rows m }
{
    'rows: for i in (0..size.rows).rev() {
        for j in 0..size.rows {
            if m[i][j] == 0.0 {
                continue;
            }
            clear_above(&mut m, size, i, j);
            continue 'rows;
        }
    }
    m
}

// Clears column j above row i: factor times row i is taken from each row above, from column 0 on.
#[inline(never)]
fn clear_above(m: &mut Table, size: Size, i: usize, j: usize)
    requires { (i < size.rows) × (j < size.rows) }
    ensures { m.new ≡ cleared_above size.rows i j m.old }
{
    let p = m[i];
    for row in &mut m[..i] {
        let factor = row[j] / p[j];
        subtract(row, &p, size, 0, factor);
    }
}

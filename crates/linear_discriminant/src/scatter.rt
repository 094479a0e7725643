// Pass 2 of the fit: the scatter of each class, and the scatter within the classes. Scatter is symmetric, so a little
// over half of it is summed: of row j twelve columns, or ten from row 10 on, from the even one at or below j. Places
// are plain numbers: a type for them would say no more than `j < 20`.
ghost use Rattle.std.specs.Prelude.{◌≡◌, [], ◌+◌, ◌≤◌, ◌<◌, length, get_or};
ghost use Rattle.linear_discriminant.specs.Inner.Passes.{centred_row, pair_added, kept_added, half_tables, scatter_of};
ghost use Rattle.linear_discriminant.specs.Inner.Passes.{stored_place, stored_width, within_row, within_table};

use crate::Rows;

// Both classes' scatter. Each row is kept in its class's next place, without a branch on its label, and added when
// sixteen are kept. Inlined, the kept rows would lie in the caller's stack while the system is solved.
#[inline(never)]
pub(crate) fn class_scatters(rows: &Rows, means: &[[f64; 20]; 2]) -> [[[f64; 12]; 20]; 2]
    ensures { result ≡ half_tables rows.now.features.now rows.now.labels.now means.now }
{
    let mut tables = [[[0.0; 12]; 20]; 2];
    let mut kept = [[[0.0; 28]; 16]; 2];
    let mut filled: [usize; 2] = [0; 2];
    let (features, _) = rows.features.as_chunks::<20>();
    for (row, label) in features.iter().zip(rows.labels) {
        let c = crate::class_of(*label);
        let m = filled[c];
        kept[c][m] = centred(row, &means[c]);
        if m < 15 {
            filled[c] = m + 1;
            continue;
        }
        add_kept(&mut tables[c], &kept[c]);
        filled[c] = 0;
    }
    add_kept(&mut tables[0], &kept[0][..filled[0]]);
    add_kept(&mut tables[1], &kept[1][..filled[1]]);
    tables
}

// A row less its class's means, and the first eight numbers once more. A contract sees a row as a column of one.
fn centred(features: &[f64; 20], mean: &[f64; 20]) -> [f64; 28]
    ensures { result ≡ centred_row features.now 0 mean.now }
{
    let centred: [f64; 20] = std::array::from_fn(|j| features[j] - mean[j]);
    let mut row = [0.0; 28];
    row[..20].copy_from_slice(&centred);
    row[20..].copy_from_slice(&centred[..8]);
    row
}

// Kept rows are added to a class's table, two of its rows at a time: twelve columns of the first ten rows, ten of the
// others.
fn add_kept(table: &mut [[f64; 12]; 20], kept: &[[f64; 28]])
    ensures { table.new ≡ kept_added kept.now (length kept.now) table.old }
{
    for j in (0..10).step_by(2) {
        add_pair(table, kept, j, 12);
    }
    for j in (10..20).step_by(2) {
        add_pair(table, kept, j, 10);
    }
}

// Kept rows are added to table rows j and j + 1, whose sums stay in registers until the last is added. The two rows are
// copied number by number, since a proof does not know how long a row of a table is; both sums are written at one
// index, since what is written behind `iter_mut().zip()` is not known to a proof.
fn add_pair(table: &mut [[f64; 12]; 20], kept: &[[f64; 28]], j: usize, width: usize)
    requires { (j < 19) × (width ≤ 12) × (j + width ≤ 28) }
    ensures { table.new ≡ pair_added width kept.now (length kept.now) j table.old }
{
    let mut a: [f64; 12] = std::array::from_fn(|d| table[j][d]);
    let mut b: [f64; 12] = std::array::from_fn(|d| table[j + 1][d]);
    for row in kept {
        let x = row[j];
        let y = row[j + 1];
        for (d, z) in row[j..j + width].iter().enumerate() {
            a[d] += x * z;
            b[d] += y * z;
        }
    }
    table[j] = a;
    table[j + 1] = b;
}

// The within-class scatter: the left side of the system.
pub(crate) fn scatter_within(tables: &[[[f64; 12]; 20]; 2], d: f64, t: f64) -> [[f64; 20]; 20]
    ensures { let classes = tables.now in
        result ≡ within_table (get_or classes 0 []) (get_or classes 1 []) d t }
{
    let mut left = [[0.0; 20]; 20];
    for (j, row) in left.iter_mut().enumerate() {
        *row = within_row(tables, d, t, j);
    }
    left
}

// Row j of it: each class's scatter, over its count, added to 0.0, the decoys' first.
fn within_row(tables: &[[[f64; 12]; 20]; 2], d: f64, t: f64, j: usize) -> [f64; 20]
    requires { j < 20 }
    ensures { let classes = tables.now in
        result ≡ within_row (get_or classes 0 []) (get_or classes 1 []) d t j }
{
    std::array::from_fn(|k| {
        (0.0 + scatter_of(&tables[0], j, k) / d) + scatter_of(&tables[1], j, k) / t
    })
}

// The scatter of columns j and k, which row j has or else row k.
fn scatter_of(table: &[[f64; 12]; 20], j: usize, k: usize) -> f64
    requires { (j < 20) × (k < 20) }
    ensures { result ≡ scatter_of table.now j k }
{
    let d = stored_place(j, k);
    if d < stored_width(j) {
        return table[j][d];
    }
    table[k][stored_place(k, j)]
}

// Where row j of a table has column k.
fn stored_place(j: usize, k: usize) -> usize
    requires { (j < 20) × (k < 20) }
    ensures { result ≡ stored_place j k }
{
    let start = 2 * (j / 2);
    if k < start {
        return k + 20 - start;
    }
    k - start
}

// How many columns row j of a table has.
fn stored_width(j: usize) -> usize
    ensures { result ≡ stored_width j }
{
    if j < 10 {
        return 12;
    }
    10
}

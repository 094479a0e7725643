// The fit: LinearDiscriminantAnalysis::train, in two passes over the rows. Index 0 is the decoys', 1 the targets'.
ghost use Rattle.std.specs.Prelude.{◌≡◌, ◌≤◌, length};
ghost use Rattle.columns.specs.Refusals.{longest};
ghost use Rattle.gauss.specs.Solutions.{solution};
ghost use Rattle.linear_discriminant.specs.Fit.{class_count, left_side, right_side};
ghost use Rattle.linear_discriminant.specs.Fit.{train_asked, trained};
ghost use Rattle.linear_discriminant.specs.Inner.Passes.{added_row, summed_rows, class_sums, mean_of, row_difference};

use crate::Rows;
use crate::scatter::{class_scatters, scatter_within};
use columns::Refusal;

// The coefficients of the linear discriminant of decoys and targets. The classes are counted first, so that all
// questions are asked together.
pub fn train(features: &[f64], labels: &[i32]) -> Result<[f64; 20], Refusal>
    ensures { result ≡ trained features.now labels.now }
{
    let decoys = counting::count_decoys(labels);
    let targets = labels.len() - decoys;
    ask(features.len(), labels.len(), decoys, targets)?;
    fit(&Rows { features, labels }, decoys, targets)
}

// Questions 1, 2 and 6.
fn ask(features: usize, labels: usize, decoys: usize, targets: usize) -> Result<(), Refusal>
    ensures { result ≡ train_asked features labels decoys targets }
{
    let short = (labels <= columns::LONGEST) & (features <= crate::LONGEST_FEATURES);
    let fits = crate::twenty_each(features, labels);
    columns::ask_lengths(short, fits)?;
    if !((1 <= decoys) & (1 <= targets)) {
        return Err(Refusal::OneClass);
    }
    Ok(())
}

// The fit of a list that has both classes: the means, the scatter within the classes, and the system's solution.
fn fit(rows: &Rows, decoys: usize, targets: usize) -> Result<[f64; 20], Refusal>
    requires lengths { (decoys ≤ longest) × (targets ≤ longest) }
    requires counts { (decoys ≡ class_count rows.now.labels.now 0) × (targets ≡ class_count rows.now.labels.now 1) }
    ensures { let left = left_side rows.now.features.now rows.now.labels.now in
        let right = right_side rows.now.features.now rows.now.labels.now in
        result ≡ solution left right 20 }
{
    let sums = class_sums(rows);
    let decoy = mean_of(&sums[0], decoys);
    let target = mean_of(&sums[1], targets);
    let means = [decoy, target];
    let tables = class_scatters(rows, &means);
    let left = scatter_within(&tables, decoys as f64, targets as f64);
    let right = subtract_rows(&target, &decoy);
    gauss::solve(left, right, 20)
}

// Pass 1: the sums of both classes.
fn class_sums(rows: &Rows) -> [[f64; 20]; 2]
    ensures { result ≡ class_sums rows.now.features.now rows.now.labels.now }
{
    let mut sums = [[0.0; 20]; 2];
    sum_rows(rows, &mut sums);
    sums
}

// Each row is added to its class's sums. Inlined into its caller, it would not have the sums in memory, and would
// choose between the classes number by number.
#[inline(never)]
fn sum_rows(rows: &Rows, sums: &mut [[f64; 20]; 2])
    ensures { let summed = summed_rows rows.now.features.now rows.now.labels.now in
        sums.new ≡ summed 0 (length rows.now.labels.now) sums.old }
{
    let (features, _) = rows.features.as_chunks::<20>();
    for (row, label) in features.iter().zip(rows.labels) {
        let c = crate::class_of(*label);
        sums[c] = add_row(row, &sums[c]);
    }
}

// A class's sums with a row added, which the contract sees as a column of one row. The new sums are an array of their
// own, so that the compiler may add several at a time.
fn add_row(row: &[f64; 20], sum: &[f64; 20]) -> [f64; 20]
    ensures { result ≡ added_row row.now 0 sum.now }
{
    std::array::from_fn(|j| sum[j] + row[j])
}

// A class's means.
fn mean_of(sum: &[f64; 20], count: usize) -> [f64; 20]
    requires { count ≤ longest }
    ensures { result ≡ mean_of sum.now count }
{
    let n = count as f64;
    std::array::from_fn(|j| sum[j] / n)
}

// The difference of two rows of means, a − b.
fn subtract_rows(a: &[f64; 20], b: &[f64; 20]) -> [f64; 20]
    ensures { result ≡ row_difference a.now b.now }
{
    std::array::from_fn(|j| a[j] - b[j])
}

// The linear discriminant, after sage's linear_discriminant.rs (document 01, module 3): the fit, a row's score, and the
// scoring run. Feature rows are twenty f64 each, one after the other. Arrays have a fixed size, since the library takes
// no memory.
#![tactic(auto)]

mod fit;
mod scatter;
mod scores;

ghost use Rattle.std.specs.Prelude.{◌≡◌, ◌*◌, ◌<◌, eqb, length};
ghost use Rattle.linear_discriminant.specs.Fit.{class_of};

pub use fit::train;
pub use gauss::solved_values;
pub use scores::{score, score_rows};

// The rows of a fit: twenty features and a label each.
#[derive(Clone, Copy)]
struct Rows<'a> {
    features: &'a [f64],
    labels: &'a [i32],
    ghost twenty_each: { length features.now ≡ 20 * length labels.now },
}

// The longest feature column that question 1 lets pass: twenty numbers for each row of the longest list.
const LONGEST_FEATURES: usize = 20 * columns::LONGEST;

// Whether there are twenty features for each row, asked so that no product can pass the range of usize.
fn twenty_each(features: usize, rows: usize) -> bool
    ensures { result ≡ eqb features (20 * rows) }
{
    (features % 20 == 0) & (features / 20 == rows)
}

// The class of a label, C's i32: 0 is the decoys', label -1, and 1 the targets'. A number and no enum, since it is the
// class's place in sums and tables, without a branch.
fn class_of(label: i32) -> usize
    ensures { (result ≡ class_of label) × (result < 2) }
{
    (label != -1) as usize
}

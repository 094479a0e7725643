// sage's ml/kde.rs without its kernel (document 01, module 4): the host gives two density columns, and the port does
// everything else in the Rust's order of operations. Each contract is an equality with a definition of specs/, for
// every input.
#![tactic(auto)]

ghost use Rattle.std.specs.Prelude.{◌≡◌, map, length, Float};
ghost use Rattle.std.specs.Float.{nan};
ghost use Rattle.folds.specs.Lists.{filled};
ghost use Rattle.columns.specs.Refusals.{answered};
ghost use Rattle.kde.specs.Bins.{fresh_builder, in_range, asked, estimator};

use columns::Refusal;

mod bins;
mod estimate;
mod logs;
mod tolerances;

pub use bins::{Densities, bin_scores, posterior_bins, slot_posterior_bins};
pub use estimate::{posterior_at, posterior_error, posterior_errors};
pub use logs::{log_error, log_errors};
pub use tolerances::bin_count;

// The most bins that question 3 lets pass.
pub const MOST_BINS: usize = 65_536;

// Question 3.
pub fn in_range(bins: usize) -> bool
    ensures { result ≡ in_range bins }
{
    (1..=MOST_BINS).contains(&bins)
}

// Questions 1, 2 and 3: of a list's length, of lengths that match or do not, and of a bin count.
fn ask(listed: usize, lengths_match: bool, bins: usize) -> Result<(), Refusal>
    ensures { result ≡ asked listed lengths_match bins }
{
    columns::ask_lengths(listed <= columns::LONGEST, lengths_match)?;
    if !in_range(bins) {
        return Err(Refusal::OutOfRange);
    }
    Ok(())
}

// Each place of a column by `f` from the other's: the column is mapped by every g that gives what `f` does. Written by
// index: what is written behind `iter_mut().zip()` is not known to a proof.
fn write_each<T: Copy, F: Fn(f64) -> T>(from: &[f64], to: &mut [T], f: F)
    requires to_len { length to.old ≡ length from.now }
    requires callable { F.IsAlwaysCallable f }
    ensures { (g : Float → T) → ((x : Float) (y : T) → F.post f x y → y ≡ g x) → to.new ≡ map g from.now }
{
    for (i, x) in from.iter().enumerate() {
        to[i] = f(*x);
    }
}

// How bins are made: whether they never rise with the score, and how many there are.
#[derive(Clone, Copy, Debug, PartialEq, Eq, Hash)]
pub struct Builder {
    pub monotonic: bool,
    pub bins: usize,
}

// By hand: derived, it would be plain and have no bins.
impl Default for Builder {
    ghost is_default = { λ builder. builder ≡ fresh_builder };

    fn default() -> Self {
        Self {
            monotonic: Self::MONOTONIC,
            bins: Self::BINS,
        }
    }
}

impl Builder {
    pub const MONOTONIC: bool = true;

    pub const BINS: usize = 1000;

    pub fn monotonic(mut self, monotonic: bool) -> Self
        ensures { result ≡ record { monotonic = monotonic; bins = self.bins } }
    {
        self.monotonic = monotonic;
        self
    }

    pub fn bins(mut self, bins: usize) -> Self
        ensures { result ≡ record { monotonic = self.monotonic; bins = bins } }
    {
        self.bins = bins;
        self
    }
}

// Least score and step; the bin column goes beside it.
#[derive(Clone, Copy, Debug, PartialEq)]
pub struct Estimator {
    pub min_score: f64,
    pub score_step: f64,
}

impl Estimator {
    // What C gets for the estimator where `bin_scores` refuses: two NaN.
    pub fn refused() -> Self
        ensures { result ≡ estimator nan nan }
    {
        Self {
            min_score: f64::NAN,
            score_step: f64::NAN,
        }
    }
}

// sage's mass::Tolerance.
#[derive(Clone, Copy, Debug, PartialEq)]
pub enum Tolerance {
    Ppm(f32, f32),
    Da(f32, f32),
    Pct(f32, f32),
}

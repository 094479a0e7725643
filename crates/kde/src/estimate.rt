// Estimator::posterior_error, for one score and for a column of them.
ghost use Rattle.std.specs.Prelude.{◌≡◌, ◌<◌, min, length};
ghost use Rattle.kde.specs.Estimate.{steps_up, posterior_error, posterior_answer};
ghost use Rattle.kde.specs.Bins.{column_run, InRange};
ghost use Rattle.kde.specs.Estimate.{posterior_errors};

use crate::{Estimator, ask, write_each};
use columns::{Refusal, or_blank};

// The bin at or below a score, or the first. The number of steps is held between 1/2 and 1/2 past the last bin before
// it is cut to a whole number, so that nothing branches; the Rust's floor changes nothing before a cut.
fn lower_bin(estimator: Estimator, last: usize, score: f64) -> usize
    requires { last < 65536 }
    ensures { result ≡ min last (steps_up estimator score) }
{
    let steps = (score - estimator.min_score) / estimator.score_step;
    let held = floats::min(last as f64 + 0.5, floats::max(0.5, steps));
    floats::whole_part(held) as usize
}

// Estimator::posterior_error on a bin column of 1 to 65,536 places. Estimator and bins are not one struct: a rule of
// the project passes an estimator by value, beside the bin column.
pub fn posterior_at(estimator: Estimator, bins: &[f64], score: f64) -> f64
    requires { InRange (length bins.now) }
    ensures { result ≡ posterior_error estimator bins.now score }
{
    let min_score = estimator.min_score;
    let score_step = estimator.score_step;
    let last = bins.len() - 1;
    let bin_lo = lower_bin(estimator, last, score);
    let bin_hi = last.min(bin_lo + 1);
    let lower = bins[bin_lo];
    let upper = bins[bin_hi];
    let bin_lo_score = bin_lo as f64 * score_step + min_score;
    let linear = (score - bin_lo_score) / score_step;
    let delta = upper - lower;
    lower + (delta * linear)
}

// The posterior error of a score.
pub fn posterior_error(estimator: Estimator, bins: &[f64], score: f64) -> Result<f64, Refusal>
    ensures { result ≡ posterior_answer estimator bins.now score }
{
    if !crate::in_range(bins.len()) {
        return Err(Refusal::OutOfRange);
    }
    Ok(posterior_at(estimator, bins, score))
}

// The posterior error of every score of a column.
pub fn posterior_errors(
    estimator: Estimator,
    bins: &[f64],
    scores: &[f64],
    errors: &mut [f64],
) -> Result<(), Refusal>
    ensures { let scores = scores.now in
        let before = errors.old in
        column_run result errors.new ≡ posterior_errors estimator bins.now scores before }
{
    let asked = ask(scores.len(), errors.len() == scores.len(), bins.len());
    or_blank(asked, errors)?;
    write_each(scores, errors, |score| posterior_at(estimator, bins, score));
    Ok(())
}

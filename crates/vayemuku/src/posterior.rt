// Module 4, posterior errors. C has no bool and no enum here: `monotonic` and `unit` are numbers, and a builder, an
// estimator and a tolerance are passed by their parts. There is one export for labels and one for flags, whose columns
// have other types.
ghost use Rattle.std.specs.Prelude.{◌≡◌};
ghost use Rattle.columns.specs.Refusals.{answer_number, answer_count, ◌and◌};
ghost use Rattle.kde.specs.Bins.{fresh_builder, estimator, bin_scores_of, built_estimator};
ghost use Rattle.kde.specs.Bins.{label_bins, slot_bins};
ghost use Rattle.kde.specs.Estimate.{posterior_answer, posterior_value, posterior_errors};
ghost use Rattle.kde.specs.Tolerances.{bin_count_answer};
ghost use Rattle.kde.specs.LogErrors.{log_error, log_errors};
ghost use Rattle.vayemuku.specs.Numbers.{builder_of, tolerance_of};

use columns::HasBlank;
use kde::{Builder, Densities, Estimator, Tolerance};

// How many bins sage's builder starts with.
#[unsafe(no_mangle)]
pub extern "C" fn vayemuku_default_bins() -> usize
    ensures { result ≡ fresh_builder.bins }
{
    let builder = Builder::default();
    builder.bins
}

// Step one: `min_score` and `score_step` get the estimator's numbers, and `bin_scores` the score of every bin.
#[unsafe(no_mangle)]
pub extern "C" fn vayemuku_bin_scores(
    bin_count: usize,
    scores: &[f64],
    bin_scores: &mut [f64],
    min_score: &mut f64,
    score_step: &mut f64,
) -> u32
    ensures { let run = bin_scores_of (builder_of 1 bin_count) scores.now bin_scores.old in
        let built = built_estimator run.answer in
        result and bin_scores.new and min_score.new and score_step.new
        ≡ answer_number run.answer and run.bin_scores and built.min_score and built.score_step }
{
    let builder = Builder::default().bins(bin_count);
    let answer = kde::bin_scores(builder, scores, bin_scores);
    let estimator = answer.unwrap_or(Estimator::refused());
    *min_score = estimator.min_score;
    *score_step = estimator.score_step;
    columns::answer_number(&answer)
}

// Step two, over labels; any `monotonic` but 0 asks for monotonic bins.
#[unsafe(no_mangle)]
pub extern "C" fn vayemuku_posterior_bins(
    monotonic: u32,
    bin_count: usize,
    labels: &[i32],
    decoy_density: &[f64],
    target_density: &[f64],
    bins: &mut [f64],
) -> u32
    ensures { let decoy = decoy_density.now in
        let target = target_density.now in
        let before = bins.old in
        let run = label_bins (builder_of monotonic bin_count) labels.now decoy target before in
        result and bins.new ≡ answer_number run.answer and run.column }
{
    let builder = Builder::default().monotonic(monotonic != 0).bins(bin_count);
    let densities = Densities {
        decoy: decoy_density,
        target: target_density,
    };
    columns::answer_number(&kde::posterior_bins(builder, labels, &densities, bins))
}

// Step two, over a competition's slots.
#[unsafe(no_mangle)]
pub extern "C" fn vayemuku_slot_posterior_bins(
    monotonic: u32,
    bin_count: usize,
    is_decoy: &[u32],
    decoy_density: &[f64],
    target_density: &[f64],
    bins: &mut [f64],
) -> u32
    ensures { let decoy = decoy_density.now in
        let target = target_density.now in
        let before = bins.old in
        let run = slot_bins (builder_of monotonic bin_count) is_decoy.now decoy target before in
        result and bins.new ≡ answer_number run.answer and run.column }
{
    let builder = Builder::default().monotonic(monotonic != 0).bins(bin_count);
    let densities = Densities {
        decoy: decoy_density,
        target: target_density,
    };
    columns::answer_number(&kde::slot_posterior_bins(builder, is_decoy, &densities, bins))
}

// `error` gets the posterior error of a score, or NaN.
#[unsafe(no_mangle)]
pub extern "C" fn vayemuku_posterior_error(
    min_score: f64,
    score_step: f64,
    bins: &[f64],
    score: f64,
    error: &mut f64,
) -> u32
    ensures { let answer = posterior_answer (estimator min_score score_step) bins.now score in
        result and error.new ≡ answer_number answer and posterior_value answer }
{
    let estimator = Estimator {
        min_score,
        score_step,
    };
    let answer = kde::posterior_error(estimator, bins, score);
    *error = answer.unwrap_or(f64::blank());
    columns::answer_number(&answer)
}

// The posterior error of every score.
#[unsafe(no_mangle)]
pub extern "C" fn vayemuku_posterior_errors(
    min_score: f64,
    score_step: f64,
    bins: &[f64],
    scores: &[f64],
    errors: &mut [f64],
) -> u32
    ensures { let built = estimator min_score score_step in
        let run = posterior_errors built bins.now scores.now errors.old in
        result and errors.new ≡ answer_number run.answer and run.column }
{
    let estimator = Estimator {
        min_score,
        score_step,
    };
    columns::answer_number(&kde::posterior_errors(estimator, bins, scores, errors))
}

// Unit 0 is ppm and 1 is Da; any other is refused as Pct is. A function and no From: neither type is this crate's.
fn tolerance(unit: u32, lo: f32, hi: f32) -> Tolerance
    ensures { result ≡ tolerance_of unit lo hi }
{
    if unit == 0 {
        return Tolerance::Ppm(lo, hi);
    }
    if unit == 1 {
        return Tolerance::Da(lo, hi);
    }
    Tolerance::Pct(lo, hi)
}

// `bin_count` gets the bin count for mass errors within a tolerance, or 0.
#[unsafe(no_mangle)]
pub extern "C" fn vayemuku_bin_count(unit: u32, lo: f32, hi: f32, bin_count: &mut usize) -> u32
    ensures { let answer = bin_count_answer (tolerance_of unit lo hi) in
        result and bin_count.new ≡ answer_number answer and answer_count answer }
{
    let answer = kde::bin_count(tolerance(unit, lo, hi));
    *bin_count = answer.unwrap_or(0);
    columns::answer_number(&answer)
}

// The host's log10 of a posterior error, narrowed, with -324.0 for an infinity.
#[unsafe(no_mangle)]
pub extern "C" fn vayemuku_log_error(log10: f64) -> f32
    ensures { result ≡ log_error log10 }
{
    kde::log_error(log10)
}

// The same for a column.
#[unsafe(no_mangle)]
pub extern "C" fn vayemuku_log_errors(log10s: &[f64], errors: &mut [f32]) -> u32
    ensures { let run = log_errors log10s.now errors.old in
        result and errors.new ≡ answer_number run.answer and run.column }
{
    columns::answer_number(&kde::log_errors(log10s, errors))
}

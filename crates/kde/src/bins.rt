// Builder::build in two steps: the scores of the bins, at which the host takes its two densities, and the bins.
ghost use Rattle.std.specs.Prelude.{◌≡◌, ◌≤◌, length};
ghost use Rattle.std.specs.Float.{nan};
ghost use Rattle.folds.specs.Lists.{filled, tabulated};
ghost use Rattle.columns.specs.Refusals.{answered};
ghost use Rattle.kde.specs.Bins.{least_score, greatest_score, bin_score};
ghost use Rattle.kde.specs.Bins.{bin_scores_run, bin_scores_of};
ghost use Rattle.kde.specs.Bins.{posterior_bin, raised, bins_of, bins_asked, column_run, label_bins, slot_bins};
ghost use Rattle.kde.specs.Inner.BinsReady.{BinsReady};

use crate::{Builder, Estimator, ask};
use columns::{Refusal, or_blank};
use std::marker::Model;

// The least and the greatest score.
#[derive(Clone, Copy)]
struct Range {
    min_score: f64,
    max_score: f64,
}

fn score_range(scores: &[f64]) -> Range
    ensures { let scores = scores.now in
        result ≡ record { min_score = least_score scores; max_score = greatest_score scores } }
{
    let mut min_score = f64::MAX;
    let mut max_score = f64::MIN;
    for score in scores {
        min_score = floats::min(min_score, *score);
        max_score = floats::max(max_score, *score);
    }
    Range {
        min_score,
        max_score,
    }
}

fn write_bin_scores(estimator: Estimator, bin_scores: &mut [f64])
    requires { length bin_scores.old ≤ 65536 }
    ensures { let bins = length bin_scores.old in
        bin_scores.new ≡ tabulated (bin_score estimator) 0 bins }
{
    let min_score = estimator.min_score;
    let score_step = estimator.score_step;
    for (bin, score) in bin_scores.iter_mut().enumerate() {
        *score = (bin as f64 * score_step) + min_score;
    }
}

// Step one: the least score and the step, and the score of every bin.
pub fn bin_scores(
    builder: Builder,
    scores: &[f64],
    bin_scores: &mut [f64],
) -> Result<Estimator, Refusal>
    ensures { let before = bin_scores.old in
        bin_scores_run result bin_scores.new ≡ bin_scores_of builder scores.now before }
{
    let bins = builder.bins;
    let asked = ask(scores.len(), bin_scores.len() == bins, bins);
    or_blank(asked, bin_scores)?;
    let range = score_range(scores);
    let estimator = Estimator {
        min_score: range.min_score,
        score_step: (range.max_score - range.min_score) / (bins - 1) as f64,
    };
    write_bin_scores(estimator, bin_scores);
    Ok(estimator)
}

// The host's two densities, taken at the scores of the bins, as C has them. A contract sees the record of them.
#[derive(Drop)]
pub struct Densities<'a> {
    pub decoy: &'a [f64],
    pub target: &'a [f64],
}

impl<'a> Model for Densities<'a> {
    ghost use Rattle.kde.specs.Bins.{Densities as Columns, densities_of};

    ghost Value = { Columns };

    ghost view = { λ d. densities_of d.decoy.now d.target.now };
}

// decoy / (target + decoy) in every bin. The densities are read by index: what is written behind `iter_mut().zip()` is
// not known to a proof.
fn mix(pi: f64, densities: &Densities, bins: &mut [f64])
    requires decoy_density_len { length densities.now.decoy ≡ length bins.old }
    requires target_density_len { length densities.now.target ≡ length bins.old }
    ensures { let bin = posterior_bin pi densities.now.decoy densities.now.target in
        bins.new ≡ tabulated bin 0 (length bins.old) }
{
    for (i, bin) in bins.iter_mut().enumerate() {
        let decoy = densities.decoy[i] * pi;
        let target = densities.target[i] * (1.0 - pi);
        *bin = decoy / (target + decoy);
    }
}

// The running maximum from the last bin down, which starts from the last bin. By index: what is written behind
// `iter_mut().rev()` is not known to a proof.
fn raise(bins: &mut [f64])
    requires { 1 ≤ length bins.old }
    ensures { bins.new ≡ raised bins.old }
{
    let mut most = bins[bins.len() - 1];
    for bin in (0..bins.len()).rev() {
        most = floats::max(most, bins[bin]);
        bins[bin] = most;
    }
}

// The bins, from the number of decoys and that of all that take part. `monotonic` is the flag of sage's Builder.
// `bins` is the result, and so no part of the densities.
fn build_bins(
    builder: Builder,
    decoys: usize,
    total: usize,
    densities: &Densities,
    bins: &mut [f64],
)
    requires { BinsReady builder decoys total densities.now bins.old }
    ensures { bins.new ≡ bins_of builder decoys total densities.now.decoy densities.now.target }
{
    let pi = decoys as f64 / total as f64;
    mix(pi, densities, bins);
    if builder.monotonic {
        raise(bins);
    }
}

// Questions 1, 2 and 3 of step two, over a list of rows or slots; a refusal leaves NaN in every bin.
fn ask_bins(
    bins: usize,
    listed: usize,
    densities: &Densities,
    column: &mut [f64],
) -> Result<(), Refusal>
    ensures answer { let decoy = length densities.now.decoy in
        let target = length densities.now.target in
        result ≡ bins_asked bins listed decoy target (length column.old) }
    ensures column { column.new ≡ answered result column.old (λ r. filled nan column.old) }
{
    let lengths_match = (densities.decoy.len() == bins)
        & (densities.target.len() == bins)
        & (column.len() == bins);
    or_blank(ask(listed, lengths_match, bins), column)
}

// Step two, over labels: the bins from the host's two densities, taken at the scores of the bins.
pub fn posterior_bins(
    builder: Builder,
    labels: &[i32],
    densities: &Densities,
    bins: &mut [f64],
) -> Result<(), Refusal>
    ensures { let decoy = densities.now.decoy in
        let target = densities.now.target in
        let before = bins.old in
        column_run result bins.new ≡ label_bins builder labels.now decoy target before }
{
    let listed = labels.len();
    ask_bins(builder.bins, listed, densities, bins)?;
    let decoys = counting::count_decoys(labels);
    build_bins(builder, decoys, listed, densities, bins);
    Ok(())
}

// Step two over a competition's slots: 1 is a decoy, 0 a target, and a slot that holds neither, as an unseen one does,
// takes no part. The flags are numbers, since C has them so, of another type than labels.
pub fn slot_posterior_bins(
    builder: Builder,
    is_decoy: &[u32],
    densities: &Densities,
    bins: &mut [f64],
) -> Result<(), Refusal>
    ensures { let decoy = densities.now.decoy in
        let target = densities.now.target in
        let before = bins.old in
        column_run result bins.new ≡ slot_bins builder is_decoy.now decoy target before }
{
    let listed = is_decoy.len();
    ask_bins(builder.bins, listed, densities, bins)?;
    let decoys = counting::how_many(is_decoy, 1);
    let total = decoys + counting::how_many(is_decoy, 0);
    build_bins(builder, decoys, total, densities, bins);
    Ok(())
}

// Replays recorded answers of the Rust's Builder::build and Estimator::posterior_error. data/README.md has the layout.
#![tactic(auto)]

use kde::{Builder, Densities, Estimator};
use replay::Recording;
use std::alloc::{AllocError, Global};
use std::io;

// No recorded build has more rows or bins, and no estimator more bins.
const MOST_ROWS: usize = 10;

const MOST_BUILT: usize = 8;

const MOST_BINS: usize = 40;

// Whether the call accepts, and least score, step and the scores of the bins are the recorded ones.
fn same_span(
    alloc: Global,
    recording: &mut Recording<'_>,
    builder: Builder,
    scores: &[f64],
) -> Result<bool, AllocError> {
    let mut bin_scores = vec![in alloc; 9.0f64; builder.bins]?;
    let Ok(estimator) = kde::bin_scores(builder, scores, &mut bin_scores) else {
        return Ok(false);
    };
    let least = recording.same(estimator.min_score);
    let step = recording.same(estimator.score_step);
    Ok(least & step & recording.same_column(&bin_scores))
}

// Whether the call accepts, and the bins from the recorded densities are the recorded ones.
fn same_bins(
    alloc: Global,
    recording: &mut Recording<'_>,
    builder: Builder,
    labels: &[i32],
) -> Result<bool, AllocError> {
    let decoy = recording.read_column::<f64>(alloc, builder.bins)?;
    let target = recording.read_column::<f64>(alloc, builder.bins)?;
    let mut bins = vec![in alloc; 9.0f64; builder.bins]?;
    let densities = Densities {
        decoy: &decoy,
        target: &target,
    };
    let answer = kde::posterior_bins(builder, labels, &densities, &mut bins);
    Ok(recording.same_column(&bins) & answer.is_ok())
}

// Whether the next build has the recorded answers.
fn same_build(alloc: Global, recording: &mut Recording<'_>) -> Result<bool, AllocError> {
    // a number, as data/README.md has it
    let monotonic = recording.read::<u32>() == 1;
    let bins = recording.read_length();
    let rows = recording.read_length();
    if rows > MOST_ROWS {
        return Ok(false);
    }
    let labels = recording.read_column::<i32>(alloc, rows)?;
    let scores = recording.read_column::<f64>(alloc, rows)?;
    if bins > MOST_BUILT {
        return Ok(false);
    }
    let builder = Builder::default().monotonic(monotonic).bins(bins);
    let spread = same_span(alloc, recording, builder, &scores)?;
    let mixed = same_bins(alloc, recording, builder, &labels)?;
    Ok(spread & mixed)
}

// Whether the next estimator gives the recorded error of the recorded score.
fn same_error(alloc: Global, recording: &mut Recording<'_>) -> Result<bool, AllocError> {
    let n = recording.read_length();
    if n > MOST_BINS {
        return Ok(false);
    }
    let bins = recording.read_column::<f64>(alloc, n)?;
    let estimator = Estimator {
        min_score: recording.read(),
        score_step: recording.read(),
    };
    let score = recording.read::<f64>();
    let answer = kde::posterior_error(estimator, &bins, score);
    Ok(answer.is_ok_and(|error| recording.same(error)))
}

// Every case with a flipped bit must differ.
fn main(rt: HostRuntime) -> io::Result<()> {
    replay::replayed(&rt, "build", same_build)?;
    replay::replayed(&rt, "build.flipped", same_build)?;
    replay::replayed(&rt, "posterior_error", same_error)?;
    replay::replayed(&rt, "posterior_error.flipped", same_error)
}

// Replays recorded answers of the Rust's LinearDiscriminantAnalysis: train and score. data/README.md has the layout.
// Rows are arrays of twenty, as the calls take them.
#![tactic(auto)]

use replay::Recording;
use std::alloc::{AllocError, Global};
use std::io;

// No recorded list has more rows.
const MOST_ROWS: usize = 60;

// Whether the fit of the next list has the recorded coefficients, or the recorded refusal and twenty NaN, as C gets
// them.
fn same_fit(alloc: Global, recording: &mut Recording<'_>) -> Result<bool, AllocError> {
    let rows = recording.read_length();
    if rows > MOST_ROWS {
        return Ok(false);
    }
    let labels = recording.read_column::<i32>(alloc, rows)?;
    let features = recording.read_column::<f64>(alloc, rows * 20)?;
    let recorded = recording.read::<u32>();
    let answer = linear_discriminant::train(&features, &labels);
    let coefficients = linear_discriminant::solved_values(answer);
    let same_number = columns::answer_number(&answer) == recorded;
    if recorded != 0 {
        return Ok(replay::holds_only(&coefficients, f64::NAN) & same_number);
    }
    Ok(recording.same_column(&coefficients) & same_number)
}

// Whether the run over one row has the recorded score, or NaN and the recorded refusal.
fn same_run(
    recording: &mut Recording<'_>,
    coefficients: &[f64; 20],
    row: &[f64; 20],
    score: f64,
) -> bool {
    let recorded = recording.read::<u32>();
    let mut scores = [9.0f64];
    let mut narrowed = [9.0f32];
    let answer = linear_discriminant::score_rows(coefficients, row, &mut scores, &mut narrowed);
    let same_number = columns::answer_number(&answer) == recorded;
    if recorded != 0 {
        let blank = replay::holds_only(&narrowed, f32::NAN) & replay::holds_only(&scores, f64::NAN);
        return blank & same_number;
    }
    recording.same_column(&narrowed) & replay::holds_only(&scores, score) & same_number
}

fn same_score(recording: &mut Recording<'_>) -> bool {
    let mut coefficients = [0.0f64; 20];
    let mut row = [0.0f64; 20];
    recording.read_into(&mut coefficients);
    recording.read_into(&mut row);
    let score = linear_discriminant::score(&coefficients, &row);
    let same = recording.same(score);
    same_run(recording, &coefficients, &row, score) & same
}

// Every case with a flipped bit must differ.
fn main(rt: HostRuntime) -> io::Result<()> {
    replay::replayed(&rt, "train", same_fit)?;
    replay::replayed(&rt, "train.flipped", same_fit)?;
    replay::replayed(&rt, "score", |_, recording| Ok(same_score(recording)))?;
    replay::replayed(
        &rt,
        "score.flipped",
        |_, recording| Ok(same_score(recording)),
    )
}

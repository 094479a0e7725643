// A row's score: LinearDiscriminantAnalysis::score. The scoring run: the part of score_psms that scores every row.
ghost use Rattle.std.specs.Prelude.{◌≡◌, ◌*◌, length, get_or};
ghost use Rattle.std.specs.Float.{nan};
ghost use Rattle.folds.specs.Lists.{tabulated};
ghost use Rattle.linear_discriminant.specs.Rows.{scored};
ghost use Rattle.linear_discriminant.specs.Scores.{score_at, narrowed_at, all_finite};
ghost use Rattle.linear_discriminant.specs.Scores.{scoring_run, score_rows_asked, scored_rows};
ghost use Rattle.linear_discriminant.specs.Inner.Blocks.{narrowed_score};

use columns::Refusal;

// The score of one row.
pub fn score(coefficients: &[f64; 20], row: &[f64; 20]) -> f64
    ensures { result ≡ scored coefficients.now (λ j. get_or row.now j nan) }
{
    let mut sum = 0.0;
    for (w, x) in coefficients.iter().zip(row) {
        sum += w * x;
    }
    sum
}

// Each row's score as f64, and narrowed to f32. `scores` says how many rows there are.
pub fn score_rows(
    coefficients: &[f64; 20],
    features: &[f64],
    scores: &mut [f64],
    narrowed: &mut [f32],
) -> Result<(), Refusal>
    ensures { let after = scoring_run result scores.new narrowed.new in
        let run = scored_rows coefficients.now features.now in
        after ≡ run scores.old narrowed.old }
{
    if let Err(refusal) = ask(coefficients, features.len(), scores.len(), narrowed.len()) {
        columns::blank(scores);
        columns::blank(narrowed);
        return Err(refusal);
    }
    score_all(coefficients, features, scores, narrowed);
    Ok(())
}

// Questions 1, 2 and 8.
fn ask(
    coefficients: &[f64; 20],
    features: usize,
    scores: usize,
    narrowed: usize,
) -> Result<(), Refusal>
    ensures { result ≡ score_rows_asked coefficients.now features scores narrowed }
{
    let short = features <= crate::LONGEST_FEATURES;
    let fits = crate::twenty_each(features, scores) & (narrowed == scores);
    columns::ask_lengths(short, fits)?;
    if !all_finite(coefficients) {
        return Err(Refusal::NotFinite);
    }
    Ok(())
}

// Question 8: whether every coefficient is finite.
fn all_finite(coefficients: &[f64; 20]) -> bool
    ensures { result ≡ all_finite coefficients.now }
{
    coefficients.iter().all(|x| x.is_finite())
}

// Every row's score, and the score narrowed, block by block: 128 rows stay in cache while their scores are narrowed.
// By the numbers of rows: what is written through `chunks_mut` is not known to a proof.
fn score_all(coefficients: &[f64; 20], features: &[f64], scores: &mut [f64], narrowed: &mut [f32])
    requires { (length features.now ≡ 20 * length scores.old) × (length narrowed.old ≡ length scores.old) }
    ensures scores { let score = score_at coefficients.now features.now in
        scores.new ≡ tabulated score 0 (length scores.old) }
    ensures narrowed { let score = narrowed_at coefficients.now features.now in
        narrowed.new ≡ tabulated score 0 (length scores.old) }
{
    let rows = scores.len();
    for from in (0..rows).step_by(128) {
        let to = from + (rows - from).min(128);
        score_block(
            coefficients,
            &features[20 * from..20 * to],
            &mut scores[from..to],
        );
        narrow_block(&scores[from..to], &mut narrowed[from..to]);
    }
}

// The scores of a block's rows. The features are read by index, since `zip` over a row's slice is 1.4 times as slow.
fn score_block(coefficients: &[f64; 20], features: &[f64], scores: &mut [f64])
    requires { length features.now ≡ 20 * length scores.old }
    ensures { let score = score_at coefficients.now features.now in
        scores.new ≡ tabulated score 0 (length scores.old) }
{
    for (i, score) in scores.iter_mut().enumerate() {
        let mut sum = 0.0;
        for (j, w) in coefficients.iter().enumerate() {
            sum += w * features[20 * i + j];
        }
        *score = sum;
    }
}

// Those scores, narrowed. They are read by index: what is written behind `iter_mut().zip()` is not known to a proof.
fn narrow_block(scores: &[f64], narrowed: &mut [f32])
    requires { length narrowed.old ≡ length scores.now }
    ensures { narrowed.new ≡ tabulated (narrowed_score scores.now) 0 (length narrowed.old) }
{
    for (i, score) in narrowed.iter_mut().enumerate() {
        *score = floats::narrow(scores[i]);
    }
}

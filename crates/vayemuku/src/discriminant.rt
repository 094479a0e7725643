// Module 3, the discriminant. C has no Result: the number of the refusal, or 0, is returned.
ghost use Rattle.std.specs.Prelude.{◌≡◌, get_or};
ghost use Rattle.std.specs.Float.{nan};
ghost use Rattle.columns.specs.Refusals.{answer_number, ◌and◌};
ghost use Rattle.gauss.specs.Solutions.{solved_values};
ghost use Rattle.linear_discriminant.specs.Rows.{scored};
ghost use Rattle.linear_discriminant.specs.Fit.{trained};
ghost use Rattle.linear_discriminant.specs.Scores.{scored_rows};

// `coefficients` gets the fit's twenty numbers, or twenty NaN.
#[unsafe(no_mangle)]
pub extern "C" fn vayemuku_train(
    features: &[f64],
    labels: &[i32],
    coefficients: &mut [f64; 20],
) -> u32
    ensures { let fitted = trained features.now labels.now in
        result and coefficients.new ≡ answer_number fitted and solved_values fitted }
{
    let fitted = linear_discriminant::train(features, labels);
    *coefficients = gauss::solved_values(fitted);
    columns::answer_number(&fitted)
}

// The score of one row.
#[unsafe(no_mangle)]
pub extern "C" fn vayemuku_score(coefficients: &[f64; 20], row: &[f64; 20]) -> f64
    ensures { result ≡ scored coefficients.now (λ j. get_or row.now j nan) }
{
    linear_discriminant::score(coefficients, row)
}

// Each row's score, and the score narrowed.
#[unsafe(no_mangle)]
pub extern "C" fn vayemuku_score_rows(
    coefficients: &[f64; 20],
    features: &[f64],
    scores: &mut [f64],
    narrowed: &mut [f32],
) -> u32
    ensures { let w = coefficients.now in
        let run = scored_rows w features.now scores.old narrowed.old in
        result and scores.new and narrowed.new
        ≡ answer_number run.answer and run.scores and run.narrowed }
{
    columns::answer_number(&linear_discriminant::score_rows(
        coefficients,
        features,
        scores,
        narrowed,
    ))
}

// Module 7, the line check; and q-values with the check of their own line. C has no enum with fields: an answer is a
// number, 1 or 0 for right, and three counts; and it has one export for each rate.
ghost use Rattle.std.specs.Prelude.{◌≡◌, Result};
ghost use Rattle.columns.specs.Refusals.{◌and◌};
ghost use Rattle.line_check.specs.Check.{line_answer, numbers_of};
ghost use Rattle.qvalue.specs.Spectrum.{spectrum_q_value};
ghost use Rattle.agreement.specs.Checked.{right_at, checked_precursors};

use columns::Refusal;
use line_check::{Line, LineNumbers, Rate};

// A line's answer as C gets it: `right` gets 1 or 0, and the others the three counts.
fn hand_over(
    answer: Result<Line, Refusal>,
    right: &mut u32,
    row: &mut usize,
    decoys_plus_one: &mut usize,
    targets: &mut usize,
) -> u32
    ensures { let answer = numbers_of answer in
        result and right.new and row.new and decoys_plus_one.new and targets.new
        ≡ answer.number and answer.right and answer.row and answer.decoys_plus_one and answer.targets }
{
    let numbers = LineNumbers::from(answer);
    *right = numbers.right;
    *row = numbers.row;
    *decoys_plus_one = numbers.decoys_plus_one;
    *targets = numbers.targets;
    numbers.number
}

// At one in 100: `right` gets 1 or 0, and the others the three counts of the answer.
#[unsafe(no_mangle)]
pub extern "C" fn vayemuku_check_line_100(
    labels: &[i32],
    line: usize,
    right: &mut u32,
    row: &mut usize,
    decoys_plus_one: &mut usize,
    targets: &mut usize,
) -> u32
    ensures { let answer = numbers_of (line_answer 100 labels.now line) in
        result and right.new and row.new and decoys_plus_one.new and targets.new
        ≡ answer.number and answer.right and answer.row and answer.decoys_plus_one and answer.targets }
{
    let answer = line_check::check_line(labels, line, Rate::OneIn100);
    hand_over(answer, right, row, decoys_plus_one, targets)
}

// At one in 20, likewise.
#[unsafe(no_mangle)]
pub extern "C" fn vayemuku_check_line_20(
    labels: &[i32],
    line: usize,
    right: &mut u32,
    row: &mut usize,
    decoys_plus_one: &mut usize,
    targets: &mut usize,
) -> u32
    ensures { let answer = numbers_of (line_answer 20 labels.now line) in
        result and right.new and row.new and decoys_plus_one.new and targets.new
        ≡ answer.number and answer.right and answer.row and answer.decoys_plus_one and answer.targets }
{
    let answer = line_check::check_line(labels, line, Rate::OneIn20);
    hand_over(answer, right, row, decoys_plus_one, targets)
}

// Q-values of spectra, and the answer at one in 100 for the line after the last row that passes.
#[unsafe(no_mangle)]
pub extern "C" fn vayemuku_checked_spectra(
    labels: &[i32],
    q: &mut [f32],
    right: &mut u32,
    row: &mut usize,
    decoys_plus_one: &mut usize,
    targets: &mut usize,
) -> u32
    ensures { let run = spectrum_q_value labels.now q.old in
        let answer = numbers_of (right_at labels.now run.answer) in
        result and q.new and right.new and row.new and decoys_plus_one.new and targets.new
        ≡ answer.number and run.q
        and answer.right and answer.row and answer.decoys_plus_one and answer.targets }
{
    let answer = agreement::checked_spectra(labels, q);
    hand_over(answer, right, row, decoys_plus_one, targets)
}

// Q-values of precursors, the place of the precursor at each rank, and the answer at one in 20 for their line.
#[unsafe(no_mangle)]
pub extern "C" fn vayemuku_checked_precursors(
    labels: &[i32],
    scores: &[f64],
    keys: &mut [u64],
    spare: &mut [u64],
    ranked: &mut [i32],
    order: &mut [u32],
    q: &mut [f32],
    right: &mut u32,
    row: &mut usize,
    decoys_plus_one: &mut usize,
    targets: &mut usize,
) -> u32
    ensures { let run = checked_precursors labels.now scores.now keys.old spare.old ranked.old order.old q.old in
        let answer = numbers_of run.answer in
        result and keys.new and spare.new and ranked.new and order.new and q.new
        and right.new and row.new and decoys_plus_one.new and targets.new
        ≡ answer.number and run.keys and run.spare and run.ranked and run.order and run.q
        and answer.right and answer.row and answer.decoys_plus_one and answer.targets }
{
    let answer = agreement::checked_precursors(labels, scores, keys, spare, ranked, order, q);
    hand_over(answer, right, row, decoys_plus_one, targets)
}

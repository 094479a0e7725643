// Module 6, q-values. C has no Result: `count` gets the count, and the number of the refusal, or 0, is returned.
ghost use Rattle.std.specs.Prelude.{◌≡◌};
ghost use Rattle.columns.specs.Refusals.{answer_number, answer_count, ◌and◌};
ghost use Rattle.qvalue.specs.Spectrum.{spectrum_q_value};
ghost use Rattle.ranking.specs.Sorted.{rank_keys};
ghost use Rattle.precursor.specs.Precursors.{picked_precursor, precursor_order};

// Q-values of a ranked list of spectra.
#[unsafe(no_mangle)]
pub extern "C" fn vayemuku_spectrum_q_value(labels: &[i32], q: &mut [f32], count: &mut usize) -> u32
    ensures { let run = spectrum_q_value labels.now q.old in
        result and q.new and count.new
        ≡ answer_number run.answer and run.q and answer_count run.answer }
{
    let answer = qvalue::spectrum_q_value(labels, q);
    *count = answer.unwrap_or(0);
    columns::answer_number(&answer)
}

// Q-values of precursors, at their places in the list.
#[unsafe(no_mangle)]
pub extern "C" fn vayemuku_picked_precursor(
    labels: &[i32],
    scores: &[f64],
    keys: &mut [u64],
    spare: &mut [u64],
    q: &mut [f32],
    count: &mut usize,
) -> u32
    ensures { let run = picked_precursor labels.now scores.now keys.old spare.old q.old in
        result and keys.new and spare.new and q.new and count.new
        ≡ answer_number run.answer and run.keys and run.spare and run.q and answer_count run.answer }
{
    let answer = precursor::picked_precursor(labels, scores, keys, spare, q);
    *count = answer.unwrap_or(0);
    columns::answer_number(&answer)
}

// The place of the precursor at each rank.
#[unsafe(no_mangle)]
pub extern "C" fn vayemuku_precursor_order(
    scores: &[f64],
    keys: &mut [u64],
    spare: &mut [u64],
    order: &mut [u32],
) -> u32
    ensures { let run = precursor_order scores.now keys.old spare.old order.old in
        result and keys.new and spare.new and order.new
        ≡ answer_number run.answer and run.keys and run.spare and run.order }
{
    columns::answer_number(&precursor::precursor_order(scores, keys, spare, order))
}

// The ranking alone: keys in ascending order, after a refusal as they came, and 0 in `spare`.
#[unsafe(no_mangle)]
pub extern "C" fn vayemuku_rank_keys(keys: &mut [u64], spare: &mut [u64]) -> u32
    ensures { let run = rank_keys keys.old spare.old in
        result and keys.new and spare.new ≡ answer_number run.answer and run.keys and run.spare }
{
    columns::answer_number(&ranking::rank_keys(keys, spare))
}

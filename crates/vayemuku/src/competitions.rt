// Module 5, competitions. C has no struct of columns, no bool and no enum here: a table is four columns, and marks,
// flags and `two_names` are numbers.
ghost use Rattle.std.specs.Prelude.{◌≡◌};
ghost use Rattle.columns.specs.Refusals.{answer_number, answer_count, ◌and◌};
ghost use Rattle.competition.specs.Tables.{table_of, fresh_table};
ghost use Rattle.competition.specs.Batches.{batch_of, add_rows};
ghost use Rattle.competition.specs.Winners.{winners};
ghost use Rattle.fdr.specs.NameQValues.{assign_q_value};
ghost use Rattle.vayemuku.specs.Numbers.{names_of, settings_of};

use competition::{Batch, Table, TableMut};
use fdr::{Names, Settings};
use kde::Estimator;

// The table in which no side is seen.
#[unsafe(no_mangle)]
pub extern "C" fn vayemuku_fresh_table(
    forward: &mut [f32],
    reverse: &mut [f32],
    forward_seen: &mut [u32],
    reverse_seen: &mut [u32],
) -> u32
    ensures { let initial = table_of forward.old reverse.old forward_seen.old reverse_seen.old in
        let after = table_of forward.new reverse.new forward_seen.new reverse_seen.new in
        let run = fresh_table initial in
        result and after ≡ answer_number run.answer and run.table }
{
    let table = TableMut {
        forward,
        reverse,
        forward_seen,
        reverse_seen,
    };
    columns::answer_number(&competition::fresh_table(table))
}

// Adds a batch of rows to a table.
#[unsafe(no_mangle)]
pub extern "C" fn vayemuku_add_rows(
    slots: &[u32],
    labels: &[i32],
    scores: &[f32],
    forward: &mut [f32],
    reverse: &mut [f32],
    forward_seen: &mut [u32],
    reverse_seen: &mut [u32],
) -> u32
    ensures { let batch = batch_of slots.now labels.now scores.now in
        let before = table_of forward.old reverse.old forward_seen.old reverse_seen.old in
        let after = table_of forward.new reverse.new forward_seen.new reverse_seen.new in
        let run = add_rows batch before in
        result and after ≡ answer_number run.answer and run.table }
{
    let batch = Batch {
        slots,
        labels,
        scores,
    };
    let table = TableMut {
        forward,
        reverse,
        forward_seen,
        reverse_seen,
    };
    columns::answer_number(&competition::add_rows(&batch, table))
}

// score() and is_decoy() of every seen slot.
#[unsafe(no_mangle)]
pub extern "C" fn vayemuku_winners(
    forward: &[f32],
    reverse: &[f32],
    forward_seen: &[u32],
    reverse_seen: &[u32],
    scores: &mut [f32],
    is_decoy: &mut [u32],
) -> u32
    ensures { let table = table_of forward.now reverse.now forward_seen.now reverse_seen.now in
        let run = winners table scores.old is_decoy.old in
        result and scores.new and is_decoy.new
        ≡ answer_number run.answer and run.scores and run.flags }
{
    let table = Table {
        forward,
        reverse,
        forward_seen,
        reverse_seen,
    };
    columns::answer_number(&competition::winners(&table, scores, is_decoy))
}

// 0 is one name for both sides of a slot, any other number two. A function and no From: neither type is this crate's.
fn names(two_names: u32) -> Names
    ensures { result ≡ names_of two_names }
{
    if two_names == 0 {
        return Names::One;
    }
    Names::Two
}

// Q-values of feature rows by their slots' names, and the count.
#[unsafe(no_mangle)]
pub extern "C" fn vayemuku_assign_q_value(
    two_names: u32,
    min_score: f64,
    score_step: f64,
    bins: &[f64],
    forward: &[f32],
    reverse: &[f32],
    forward_seen: &[u32],
    reverse_seen: &[u32],
    slots: &[u32],
    labels: &[i32],
    keys: &mut [u64],
    spare: &mut [u64],
    q: &mut [f32],
    count: &mut usize,
) -> u32
    ensures { let settings = settings_of two_names min_score score_step in
        let table = table_of forward.now reverse.now forward_seen.now reverse_seen.now in
        let run = assign_q_value settings bins.now table slots.now labels.now keys.old spare.old q.old in
        result and keys.new and spare.new and q.new and count.new
        ≡ answer_number run.answer and run.keys and run.spare and run.q and answer_count run.answer }
{
    let settings = Settings {
        names: names(two_names),
        estimator: Estimator {
            min_score,
            score_step,
        },
    };
    let table = Table {
        forward,
        reverse,
        forward_seen,
        reverse_seen,
    };
    let answer = fdr::assign_q_value(settings, bins, &table, slots, labels, keys, spare, q);
    *count = answer.unwrap_or(0);
    columns::answer_number(&answer)
}

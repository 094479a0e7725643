// picked_precursor of sage's fdr.rs (document 01, module 6), and the order in which it ranks its rows.
#![tactic(auto)]

ghost use Rattle.std.specs.Prelude.{◌≡◌, ◌<◌, length, get_or, pos};
ghost use Rattle.counting.specs.Labels.{is_decoy};
ghost use Rattle.columns.specs.Refusals.{ranked_run};
ghost use Rattle.precursor.specs.Precursors.{precursor_asked, picked_precursor};
ghost use Rattle.precursor.specs.Precursors.{order_asked, order_run, precursor_order};

use columns::Refusal;

mod packing;
mod passes;

// Questions 1 and 2.
fn ask(labels: usize, scores: usize, keys: usize, spare: usize, q: usize) -> Result<(), Refusal>
    ensures { result ≡ precursor_asked labels scores keys spare q }
{
    let short = (labels <= columns::LONGEST) & (scores <= columns::LONGEST);
    let fits = (scores == labels) & ((keys == labels) & ((spare == labels) & (q == labels)));
    columns::ask_lengths(short, fits)
}

// Q-values of precursors, at their original places, and how many targets have one of at most 0.05. The rows are ranked
// by their peak scores as f32. A label is C's i32, of which −1 alone is a decoy. `keys` and `spare` are working
// columns, two as the C interface has them; see D64.
pub fn picked_precursor(
    labels: &[i32],
    scores: &[f64],
    keys: &mut [u64],
    spare: &mut [u64],
    q: &mut [f32],
) -> Result<usize, Refusal>
    ensures { let after = ranked_run result keys.new spare.new q.new in
        let run = picked_precursor labels.now scores.now in
        after ≡ run keys.old spare.old q.old }
{
    if let Err(refusal) = ask(labels.len(), scores.len(), keys.len(), spare.len(), q.len()) {
        columns::clear(keys, spare);
        columns::blank(q);
        return Err(refusal);
    }
    let decoy_at = |place: usize|
        requires { place < length labels.now }
        ensures { result ≡ is_decoy (get_or labels.entry.now place (pos 0)) }
    { labels[place] == -1 };
    packing::pack(scores, decoy_at, keys);
    ranking::sort(keys, spare);
    let passing = passes::assign_q_value(keys, q);
    columns::clear(keys, spare);
    Ok(passing)
}

// Questions 1 and 2.
fn ask_order(scores: usize, keys: usize, spare: usize, order: usize) -> Result<(), Refusal>
    ensures { result ≡ order_asked scores keys spare order }
{
    let short = scores <= columns::LONGEST;
    let fits = (keys == scores) & ((spare == scores) & (order == scores));
    columns::ask_lengths(short, fits)
}

// At each rank the place, from 0, of the precursor that picked_precursor ranks there: a line of a precursor list counts
// its rows so. `keys` and `spare` are working columns, two as the C interface has them.
pub fn precursor_order(
    scores: &[f64],
    keys: &mut [u64],
    spare: &mut [u64],
    order: &mut [u32],
) -> Result<(), Refusal>
    ensures { let after = order_run result keys.new spare.new order.new in
        let run = precursor_order scores.now in
        after ≡ run keys.old spare.old order.old }
{
    if let Err(refusal) = ask_order(scores.len(), keys.len(), spare.len(), order.len()) {
        columns::clear(keys, spare);
        columns::blank(order);
        return Err(refusal);
    }
    packing::pack(scores, |_| false, keys);
    ranking::sort(keys, spare);
    passes::write_order(keys, order);
    columns::clear(keys, spare);
    Ok(())
}

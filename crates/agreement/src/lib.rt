// Theorems over the definitions of several crates: demand 3 in one statement, and document 01's table of known points;
// and two functions over the public calls that show demand 3 of the code: each makes a list's q-values and then checks
// the line after the rows that pass. An accepted list is always answered Right, which is proved from the contracts of
// the calls and demand 3.
#![tactic(auto)]

ghost use Rattle.std.specs.Prelude.{◌≡◌, map, ◌<◌, pos, length, get_or};
ghost use Rattle.std.specs.Float.{nan};
ghost use Rattle.folds.specs.Inner.Each.{Each};
ghost use Rattle.columns.specs.Refusals.{◌and◌};
ghost use Rattle.floats.specs.Ratio.{one_in};
ghost use Rattle.counting.specs.QValues.{count_at_most};
ghost use Rattle.qvalue.specs.Spectrum.{spectrum_q_value};
ghost use Rattle.agreement.specs.Checked.{right_at, checked_asked, checked_run, checked_precursors};
ghost use Rattle.agreement.specs.Inner.Ready.{CheckedReady};

use columns::Refusal;
use line_check::{Line, Rate};

// Q-values of a ranked list of spectra, and the line check's answer at one in 100 for the line after its last row that
// passes: Right with its counts, or why the list is refused.
pub fn checked_spectra(labels: &[i32], q: &mut [f32]) -> Result<Line, Refusal>
    ensures { let run = spectrum_q_value labels.now q.old in
        result and q.new ≡ right_at labels.now run.answer and run.q }
{
    let count = qvalue::spectrum_q_value(labels, q)?;
    line_check::check_line(labels, count, Rate::OneIn100)
}

// Questions 1 and 2.
fn ask(
    labels: usize,
    scores: usize,
    keys: usize,
    spare: usize,
    ranked: usize,
    order: usize,
    q: usize,
) -> Result<(), Refusal>
    ensures { result ≡ checked_asked labels scores keys spare ranked order q }
{
    let short = (labels <= columns::LONGEST) & (scores <= columns::LONGEST);
    let working = (keys == labels) & ((spare == labels) & (ranked == labels));
    let fits = (scores == labels) & (working & ((order == labels) & (q == labels)));
    columns::ask_lengths(short, fits)
}

// The labels in ranked order, and how many rows have a q-value of at most 0.05. By index: what is written behind
// `iter_mut().zip()` is not known to a proof.
fn read_ranked(labels: &[i32], q: &[f32], order: &[u32], ranked: &mut [i32]) -> usize
    requires q_len { (length q.now ≡ length labels.now) × (length ranked.old ≡ length order.now) }
    requires order_in_bounds { Each (λ row. row < length labels.now) order.now }
    ensures count { result ≡ count_at_most (one_in 20) (map (λ row. get_or q.now row nan) order.now) }
    ensures column { ranked.new ≡ map (λ row. get_or labels.now row (pos 0)) order.now }
{
    let mut passing = 0;
    for (i, row) in order.iter().enumerate() {
        let row = *row as usize;
        ranked[i] = labels[row];
        passing += (q[row] <= 0.05) as usize;
    }
    passing
}

// The work of `checked_precursors`, whose questions are those of both calls: it is proved that neither refuses.
fn make_and_check(
    labels: &[i32],
    scores: &[f64],
    keys: &mut [u64],
    spare: &mut [u64],
    ranked: &mut [i32],
    order: &mut [u32],
    q: &mut [f32],
) -> Result<Line, Refusal>
    requires { CheckedReady (length labels.now) (length scores.now) (length keys.old) (length spare.old)
        (length ranked.old) (length order.old) (length q.old) }
    ensures { let after = checked_run result keys.new spare.new ranked.new order.new in
        let run = checked_precursors labels.now scores.now keys.old in
        after q.new ≡ run spare.old ranked.old order.old q.old }
{
    precursor::picked_precursor(labels, scores, keys, spare, q).unwrap();
    precursor::precursor_order(scores, keys, spare, order).unwrap();
    let line = read_ranked(labels, q, order, ranked);
    let answer = line_check::check_line(ranked, line, Rate::OneIn20);
    ranked.fill(0);
    answer
}

// Q-values of precursors at their places, the row at each rank, and the line check's answer at one in 20 for the line
// after the last ranked row that passes: Right with its counts, or why the list is refused. `keys`, `spare` and
// `ranked` are working columns, three as the C interface has them. All columns are parameters and no struct, since they
// go on to other calls one by one.
pub fn checked_precursors(
    labels: &[i32],
    scores: &[f64],
    keys: &mut [u64],
    spare: &mut [u64],
    ranked: &mut [i32],
    order: &mut [u32],
    q: &mut [f32],
) -> Result<Line, Refusal>
    ensures { let after = checked_run result keys.new spare.new ranked.new order.new in
        let run = checked_precursors labels.now scores.now keys.old in
        after q.new ≡ run spare.old ranked.old order.old q.old }
{
    if let Err(refusal) = ask(
        labels.len(),
        scores.len(),
        keys.len(),
        spare.len(),
        ranked.len(),
        order.len(),
        q.len(),
    ) {
        columns::clear(keys, spare);
        ranked.fill(0);
        columns::blank(order);
        columns::blank(q);
        return Err(refusal);
    }
    make_and_check(labels, scores, keys, spare, ranked, order, q)
}

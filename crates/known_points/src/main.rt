// Runs document 01's known points, marked or not, and prints one line a point; `stdout` holds what the document says.
// Floats are printed by their bits. Lists are arrays, as long as their points say, so that nothing is assumed of C's
// memory. Each function has one sentence of the document, so that some differ in a number alone.
#![tactic(auto)]

ghost use Rattle.std.specs.Prelude.{◌<◌};

use columns::Refusal;
use competition::{Batch, Table, TableMut};
use fdr::{Names, Settings};
use kde::{Estimator, Tolerance};
use line_check::{Line, Rate};
use replay::Recorded;
use std::fmt::{self, Display};
use std::io;

// What a call answers, or the number of its refusal.
#[derive(Drop)]
struct Answer<T>(Result<T, Refusal>);

impl<T: Display> Display for Answer<T> {
    fn fmt<W: fmt::Write>(&self, f: &mut fmt::Formatter<W>) -> fmt::Result {
        match &self.0 {
            Ok(value) => write!(f, "{value}"),
            Err(refusal) => write!(f, "refused {}", u32::from(*refusal)),
        }
    }
}

fn accepted(answer: Result<(), Refusal>) -> Answer<&'static str> {
    Answer(answer.map(|_| "accepted"))
}

// How many rows pass.
#[derive(Drop)]
struct Count(usize);

impl Display for Count {
    fn fmt<W: fmt::Write>(&self, f: &mut fmt::Formatter<W>) -> fmt::Result {
        write!(f, "count {}", self.0)
    }
}

fn counted(answer: Result<usize, Refusal>) -> Answer<Count> {
    Answer(answer.map(Count))
}

// A line's answer.
#[derive(Drop)]
struct Judged(Line);

impl Display for Judged {
    fn fmt<W: fmt::Write>(&self, f: &mut fmt::Formatter<W>) -> fmt::Result {
        let (word, counts) = match self.0 {
            Line::Right(counts) => ("right", counts),
            Line::Wrong(counts) => ("wrong", counts),
        };
        write!(
            f,
            "{word} {} {} {}",
            counts.row, counts.decoys_plus_one, counts.targets
        )
    }
}

fn checked(answer: Result<Line, Refusal>) -> Answer<Judged> {
    Answer(answer.map(Judged))
}

// A float's bits.
#[derive(Drop)]
struct Double(f64);

impl Display for Double {
    fn fmt<W: fmt::Write>(&self, f: &mut fmt::Formatter<W>) -> fmt::Result {
        write!(f, "{:016x}", self.0.bits())
    }
}

// N labels: targets, but for a decoy at this place.
fn one_decoy_at<const N: usize>(place: usize) -> [i32; N]
    requires { place < N }
{
    let mut labels = [1i32; N];
    labels[place] = -1;
    labels
}

// How many places of a column hold this float.
fn times(column: &[f32], x: f32) -> usize {
    column.iter().filter(|y| y.bits() == x.bits()).count()
}

// "no rows: count 0, line 0 right"
fn no_rows(rt: &impl Print) -> io::Result<()> {
    let count = counted(qvalue::spectrum_q_value(&[], &mut []));
    let line = checked(line_check::check_line(&[], 0, Rate::OneIn100));
    println!(rt; "no rows: {count}, line 0 {line}")
}

// "one decoy: q 1.0"
fn one_decoy(rt: &impl Print) -> io::Result<()> {
    let mut q = [0.0f32; 1];
    let count = counted(qvalue::spectrum_q_value(&[-1], &mut q));
    println!(rt; "one decoy: {count}, q {:08x}", q[0].bits())
}

// "target, decoy, target: q 1, 1, 1"
fn target_decoy_target(rt: &impl Print) -> io::Result<()> {
    let mut q = [0.0f32; 3];
    let count = counted(qvalue::spectrum_q_value(&[1, -1, 1], &mut q));
    print!(rt; "target, decoy, target: {count}, q")?;
    for x in q {
        print!(rt; " {:08x}", x.bits())?;
    }
    println!(rt)
}

// "Labels 0 and 7 are targets."
fn labels_0_and_7(rt: &impl Print) -> io::Result<()> {
    let line = checked(line_check::check_line(&[0, 7], 2, Rate::OneIn100));
    println!(rt; "labels 0 and 7, line 2: {line}")
}

// "100 targets, one decoy: q 0.01 a hundred times, then 0.02 (as f32); count 100, line 100."
fn targets_100(rt: &impl Print) -> io::Result<()> {
    let labels = one_decoy_at::<101>(100);
    let mut q = [0.0f32; 101];
    let count = counted(qvalue::spectrum_q_value(&labels, &mut q));
    let hundred = times(&q, 0.01);
    let line = checked(line_check::check_line(&labels, 100, Rate::OneIn100));
    print!(rt;
        "100 targets, one decoy: {count}, q 0.01 {hundred} times, then {:08x}",
        q[100].bits()
    )?;
    println!(rt; ", line 100 {line}")
}

// "99 targets, one decoy: count 0."
fn targets_99(rt: &impl Print) -> io::Result<()> {
    let count = counted(qvalue::spectrum_q_value(&one_decoy_at::<100>(99), &mut [0.0; 100]));
    println!(rt; "99 targets, one decoy: {count}")
}

// "200 targets, one decoy: spectrum count 201; the last row passes at 2/200."
fn targets_200(rt: &impl Print) -> io::Result<()> {
    let mut q = [0.0f32; 201];
    let count = counted(qvalue::spectrum_q_value(&one_decoy_at::<201>(200), &mut q));
    println!(rt;
        "200 targets, one decoy: {count}, last {:08x}",
        q[200].bits()
    )
}

fn line_at_one_in_20(rt: &impl Print, labels: &[i32], line: usize) -> io::Result<()> {
    let targets = labels.iter().filter(|label| **label == 1).count();
    let answer = checked(line_check::check_line(labels, line, Rate::OneIn20));
    println!(rt; "{targets} targets, one decoy, line {line} at one in 20: {answer}")
}

// "20 targets, one decoy at one in 20: line 20, 20 targets." "19 targets: line 0." "40 targets, one decoy: line 41, 40
// targets."
fn lines_at_one_in_20(rt: &impl Print) -> io::Result<()> {
    line_at_one_in_20(rt, &one_decoy_at::<21>(20), 20)?;
    line_at_one_in_20(rt, &one_decoy_at::<20>(19), 0)?;
    line_at_one_in_20(rt, &one_decoy_at::<41>(40), 41)
}

// The row at each rank: the greatest score first, equal scores in list order.
fn order_of_four(rt: &impl Print) -> io::Result<()> {
    let scores = [1.0f64, 3.0, 2.0, 3.0];
    let mut order = [9u32; 4];
    let answer = precursor::precursor_order(&scores, &mut [9; 4], &mut [9; 4], &mut order);
    print!(rt; "scores 1, 3, 2 and 3 as ranked: {}", accepted(answer))?;
    for row in order {
        print!(rt; " {row}")?;
    }
    println!(rt)
}

// The scores of a precursor list of N rows, of which the first has the least.
fn first_least<const N: usize>() -> [f64; N]
    requires { 0 < N }
{
    let mut scores = [5.0f64; N];
    scores[0] = 1.0;
    scores
}

// A precursor list in any order: the decoy has the least score.
fn precursors_20(rt: &impl Print) -> io::Result<()> {
    let mut q = [0.0f32; 21];
    let answer = precursor::picked_precursor(
        &one_decoy_at::<21>(0),
        &first_least::<21>(),
        &mut [9; 21],
        &mut [9; 21],
        &mut q,
    );
    let count = counted(answer);
    let twenty = times(&q, 0.05);
    print!(rt; "20 targets, one decoy, as precursors: {count}, q 0.05 {twenty} times")?;
    println!(rt; ", first {:08x}", q[0].bits())
}

// With the check of their own line: "100 targets, one decoy: … count 100, line 100."
fn checked_spectra(rt: &impl Print) -> io::Result<()> {
    let line = agreement::checked_spectra(&one_decoy_at::<101>(100), &mut [0.0; 101]);
    println!(rt;
        "100 targets, one decoy, with the check of their line: {}",
        checked(line)
    )
}

// As precursors, the decoy with the least score: "40 targets, one decoy: line 41, 40 targets."
fn checked_precursors(rt: &impl Print) -> io::Result<()> {
    let line = agreement::checked_precursors(
        &one_decoy_at::<41>(0),
        &first_least::<41>(),
        &mut [9; 41],
        &mut [9; 41],
        &mut [9; 41],
        &mut [9; 41],
        &mut [0.0; 41],
    );
    print!(rt; "40 targets, one decoy, as precursors, with the check of their line: ")?;
    println!(rt; "{}", checked(line))
}

// Question 2: a working column that is one entry short.
fn checked_refusal(rt: &impl Print) -> io::Result<()> {
    let line = agreement::checked_precursors(
        &[1, 1],
        &[2.0, 1.0],
        &mut [9; 2],
        &mut [9; 2],
        &mut [9; 1],
        &mut [9; 2],
        &mut [0.0; 2],
    );
    println!(rt;
        "two precursors with a column of one entry: {}",
        checked(line)
    )
}

// The first two numbers of a solution.
#[derive(Drop)]
struct Solution([f64; 20]);

impl Display for Solution {
    fn fmt<W: fmt::Write>(&self, f: &mut fmt::Formatter<W>) -> fmt::Result {
        write!(f, "answer {} {}", Double(self.0[0]), Double(self.0[1]))
    }
}

fn solve(left: f64, right: f64, size: usize) -> Answer<Solution> {
    let mut table = [[0.0f64; 20]; 20];
    table[0][0] = left;
    let mut column = [0.0f64; 20];
    column[0] = right;
    Answer(gauss::solve(table, column, size).map(Solution))
}

// "system [-1E-8], right side 5: answer 5, since the entry becomes 0. system [NaN]: 7. Size 0 or 21: 3."
fn systems(rt: &impl Print) -> io::Result<()> {
    println!(rt; "system [-1E-8], right side 5: {}", solve(-1e-8, 5.0, 1))?;
    println!(rt; "system [NaN]: {}", solve(f64::NAN, 5.0, 1))?;
    println!(rt; "size 0: {}", solve(1.0, 5.0, 0))?;
    println!(rt; "size 21: {}", solve(1.0, 5.0, 21))
}

fn error_at(score: f64) -> Answer<Double> {
    let estimator = Estimator {
        min_score: 0.0,
        score_step: 1.0,
    };
    Answer(kde::posterior_error(estimator, &[0.5, 0.25], score).map(Double))
}

// "bins 0.5, 0.25, least 0, step 1: score 0.5 gives 0.375; 2 gives 0.25; -3 gives 1.25."
fn posterior_errors(rt: &impl Print) -> io::Result<()> {
    print!(rt; "bins 0.5, 0.25, least 0, step 1: ")?;
    println!(rt;
        "0.5 {}, 2 {}, -3 {}",
        error_at(0.5),
        error_at(2.0),
        error_at(-3.0)
    )
}

// "ppm -10 to 10: 100 bins. ppm -75.5 to 75: 151. Da -600 to 600: 1200. Da 0 to 65,537: 3. Pct: 4."
fn tolerances(rt: &impl Print) -> io::Result<()> {
    let bins = |tolerance: Tolerance| Answer(kde::bin_count(tolerance));
    println!(rt; "ppm -10 to 10: {}", bins(Tolerance::Ppm(-10.0, 10.0)))?;
    println!(rt; "ppm -75.5 to 75: {}", bins(Tolerance::Ppm(-75.5, 75.0)))?;
    println!(rt; "Da -600 to 600: {}", bins(Tolerance::Da(-600.0, 600.0)))?;
    println!(rt; "Da 0 to 65537: {}", bins(Tolerance::Da(0.0, 65537.0)))?;
    println!(rt; "Pct -10 to 10: {}", bins(Tolerance::Pct(-10.0, 10.0)))
}

// A table of N slots in arrays, which begins with garbage; replay_fdr has one of Vecs.
#[derive(Drop)]
struct Slots<const N: usize> {
    forward: [f32; N],
    reverse: [f32; N],
    forward_seen: [u32; N],
    reverse_seen: [u32; N],
}

impl<const N: usize> Slots<N> {
    fn garbage() -> Self {
        Slots {
            forward: [0.0; N],
            reverse: [0.0; N],
            forward_seen: [9; N],
            reverse_seen: [9; N],
        }
    }

    fn table(&self) -> Table<'_> {
        Table {
            forward: &self.forward,
            reverse: &self.reverse,
            forward_seen: &self.forward_seen,
            reverse_seen: &self.reverse_seen,
        }
    }

    fn table_mut(&mut self) -> TableMut<'_> {
        TableMut {
            forward: &mut self.forward,
            reverse: &mut self.reverse,
            forward_seen: &mut self.forward_seen,
            reverse_seen: &mut self.reverse_seen,
        }
    }

    fn cleared(&mut self) -> Answer<&'static str> {
        accepted(competition::fresh_table(self.table_mut()))
    }

    fn with_rows(&mut self, slots: &[u32], labels: &[i32], scores: &[f32]) -> Answer<&'static str> {
        let batch = Batch {
            slots,
            labels,
            scores,
        };
        accepted(competition::add_rows(&batch, self.table_mut()))
    }
}

// "equal forward and reverse: decoy wins."
fn equal_sides(rt: &impl Print) -> io::Result<()> {
    let mut slots = Slots::<1>::garbage();
    let mut scores = [0.0f32; 1];
    let mut is_decoy = [9u32; 1];
    let cleared = slots.cleared();
    let added = slots.with_rows(&[0, 0], &[1, -1], &[2.0, 2.0]);
    let won = accepted(competition::winners(&slots.table(), &mut scores, &mut is_decoy));
    print!(rt; "equal forward and reverse: {cleared} {added} {won}")?;
    print!(rt;
        " {:08x} {:08x}",
        slots.forward[0].bits(),
        slots.reverse[0].bits()
    )?;
    println!(rt; " {:08x} {}", scores[0].bits(), is_decoy[0])
}

// "A score of -infinity leaves f32::MIN." A slot past the table is refused, and leaves the table as it is.
fn minus_infinity(rt: &impl Print) -> io::Result<()> {
    let mut slots = Slots {
        forward: [f32::MIN],
        reverse: [f32::MIN],
        forward_seen: [0],
        reverse_seen: [0],
    };
    let added = slots.with_rows(&[0], &[1], &[f32::NEG_INFINITY]);
    print!(rt;
        "a score of -infinity: {added} {:08x}",
        slots.forward[0].bits()
    )?;
    println!(rt; " {}", slots.forward_seen[0])?;
    let added = slots.with_rows(&[0, 1], &[-1, 1], &[1.0, 1.0]);
    print!(rt;
        "slot 1 of one slot: {added} {:08x}",
        slots.reverse[0].bits()
    )?;
    println!(rt; " {}", slots.reverse_seen[0])
}

// "two target slots scored 2.0 and 1.0, bins 0.5, 0.25, least 1, step 1: q 0.875 for both, count 0."
fn two_slots(rt: &impl Print) -> io::Result<()> {
    let settings = Settings {
        names: Names::Two,
        estimator: Estimator {
            min_score: 1.0,
            score_step: 1.0,
        },
    };
    // the last row takes no part
    let rows = [0, 1, u32::MAX];
    let labels = [1, 1, 1];
    let mut slots = Slots::<2>::garbage();
    let mut q = [0.0f32; 3];
    let cleared = slots.cleared();
    let added = slots.with_rows(&rows, &labels, &[2.0, 1.0, 3.0]);
    let answer = fdr::assign_q_value(
        settings,
        &[0.5, 0.25],
        &slots.table(),
        &rows,
        &labels,
        &mut [9; 4],
        &mut [9; 4],
        &mut q,
    );
    let count = counted(answer);
    print!(rt; "two target slots, and a row that takes no part: {cleared} {added} {count}, q")?;
    for x in q {
        print!(rt; " {:08x}", x.bits())?;
    }
    println!(rt)
}

// "Is the line at most the list's length?" and "Do all lent columns have the stated length …?"
fn refusals(rt: &impl Print) -> io::Result<()> {
    let line = checked(line_check::check_line(&[1], 2, Rate::OneIn100));
    println!(rt; "line 2 of one row: {line}")?;
    let mut q = [0.0f32; 2];
    let count = counted(qvalue::spectrum_q_value(&[1], &mut q));
    let blanks = times(&q, f32::NAN);
    println!(rt; "one label, two q: {count}, q NaN {blanks} times")
}

fn main(rt: HostRuntime) -> io::Result<()> {
    no_rows(&rt)?;
    one_decoy(&rt)?;
    target_decoy_target(&rt)?;
    labels_0_and_7(&rt)?;
    targets_100(&rt)?;
    targets_99(&rt)?;
    targets_200(&rt)?;
    lines_at_one_in_20(&rt)?;
    precursors_20(&rt)?;
    order_of_four(&rt)?;
    checked_spectra(&rt)?;
    checked_precursors(&rt)?;
    checked_refusal(&rt)?;
    systems(&rt)?;
    posterior_errors(&rt)?;
    tolerances(&rt)?;
    equal_sides(&rt)?;
    minus_infinity(&rt)?;
    two_slots(&rt)?;
    refusals(&rt)
}

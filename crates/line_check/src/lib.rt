// The line check (document 01, module 7), which sage does not have. One pass: it counts up to the line, keeps those
// counts, and goes on to the end, where the last later row that qualifies is known. A label is C's i32, of which −1
// alone is a decoy.
#![tactic(auto)]

ghost use Rattle.std.specs.Prelude.{◌≡◌, ◌≤◌, max, length};
ghost use Rattle.columns.specs.Refusals.{longest};
ghost use Rattle.counting.specs.Lines.{right_line};
ghost use Rattle.line_check.specs.Check.{per_of, counts_at, judgement, line_asked, line_answer, numbers_of};

use columns::Refusal;

// The two rates that lists are sold at, each as how many targets a row needs for each of its decoys plus one.
#[derive(Clone, Copy, Debug, PartialEq, Eq, Hash)]
pub enum Rate {
    OneIn100 = 100,
    OneIn20 = 20,
}

// A row, and the decoys plus one and the targets up to it.
#[derive(Clone, Copy, Debug, PartialEq, Eq, Hash)]
pub struct Counts {
    pub row: usize,
    pub decoys_plus_one: usize,
    pub targets: usize,
}

// What is said of a line: whether it is right, with the counts that the answer carries. Document 01 has this enum, and
// no Result: a wrong line is an answer too.
#[derive(Clone, Copy, Debug, PartialEq, Eq, Hash)]
pub enum Line {
    Right(Counts),
    Wrong(Counts),
}

// A line's answer as numbers, since those are what the C interface hands out.
#[derive(Clone, Copy, Debug, PartialEq, Eq, Hash)]
pub struct LineNumbers {
    pub number: u32,
    pub right: u32,
    pub row: usize,
    pub decoys_plus_one: usize,
    pub targets: usize,
}

impl From<Result<Line, Refusal>> for LineNumbers {
    ghost from_gives = { λ answer numbers. numbers ≡ numbers_of answer };

    fn from(answer: Result<Line, Refusal>) -> LineNumbers {
        match answer {
            Ok(Line::Right(c)) => LineNumbers {
                number: 0,
                right: 1,
                row: c.row,
                decoys_plus_one: c.decoys_plus_one,
                targets: c.targets,
            },
            Ok(Line::Wrong(c)) => LineNumbers {
                number: 0,
                right: 0,
                row: c.row,
                decoys_plus_one: c.decoys_plus_one,
                targets: c.targets,
            },
            Err(refusal) => LineNumbers {
                number: u32::from(refusal),
                right: 0,
                row: 0,
                decoys_plus_one: 0,
                targets: 0,
            },
        }
    }
}

impl Rate {
    // How many targets a row needs for each of its decoys plus one: the rate's own number.
    fn per_decoy(self) -> usize
        ensures { result ≡ per_of self }
    {
        self as usize
    }
}

// The counts at `row`.
#[tactic(auto, using(counting::proofs::Labels::row_counts, crate::proofs::Later::counted_is))]
fn count_to(labels: &[i32], row: usize) -> Counts
    requires { row ≤ length labels.now }
    ensures { result ≡ counts_at labels.now row }
{
    let decoys = counting::count_decoys(&labels[..row]);
    Counts {
        row,
        decoys_plus_one: decoys + 1,
        targets: row - decoys,
    }
}

// The counts at the last row after `own` that qualifies, or those of `own` if none does. The pass goes on where `own`
// ends.
// The bound on the list's length is a `requires` here and in `judge`, and no struct's: `right_line`, which is public,
// would have to ask for the same bound to build one. A list and its rate stay two arguments, as they come.
fn last_later(labels: &[i32], own: Counts, rate: Rate) -> Counts
    requires labels_len_bound { length labels.now ≤ longest }
    requires row_in_bounds { own.row ≤ length labels.now }
    requires own_counts { own ≡ counts_at labels.now own.row }
    ensures { let l = labels.now in
        result ≡ counts_at l (max own.row (right_line (per_of rate) l)) }
{
    let per = rate.per_decoy();
    let mut last = own;
    let mut so_far = own;
    // a `while`: over the labels by `for` no row takes a branch, and the pass takes 1.5 to 1.8 times as long
    while so_far.row < labels.len() {
        let is_decoy = (labels[so_far.row] == -1) as usize;
        so_far.row += 1;
        so_far.decoys_plus_one += is_decoy;
        so_far.targets += 1 - is_decoy;
        if so_far.targets < per * so_far.decoys_plus_one {
            continue;
        }
        last = so_far;
    }
    last
}

// The counts at the right line of a ranked list at `rate`: the last row that qualifies, or row 0.
pub fn right_line(labels: &[i32], rate: Rate) -> Counts
    requires { length labels.now ≤ longest }
    ensures { result ≡ counts_at labels.now (right_line (per_of rate) labels.now) }
{
    let none = Counts {
        row: 0,
        decoys_plus_one: 1,
        targets: 0,
    };
    last_later(labels, none, rate)
}

// What is said of a line of the list: right where no later row qualifies, and the line is 0 or its own row qualifies.
fn judge(labels: &[i32], line: usize, rate: Rate) -> Line
    requires labels_len_bound { length labels.now ≤ longest }
    requires line_in_bounds { line ≤ length labels.now }
    ensures { result ≡ judgement (per_of rate) labels.now line }
{
    let per = rate.per_decoy();
    let own = count_to(labels, line);
    let last = last_later(labels, own, rate);
    if line < last.row {
        return Line::Wrong(last);
    }
    if line == 0 {
        return Line::Right(own);
    }
    if own.targets < per * own.decoys_plus_one {
        return Line::Wrong(last);
    }
    Line::Right(own)
}

// Questions 1 and 9.
fn ask(labels: usize, line: usize) -> Result<(), Refusal>
    ensures { result ≡ line_asked labels line }
{
    if columns::LONGEST < labels {
        return Err(Refusal::TooLong);
    }
    if labels < line {
        return Err(Refusal::PastTheEnd);
    }
    Ok(())
}

// Whether `line` is the right line of a ranked list at `rate`.
pub fn check_line(labels: &[i32], line: usize, rate: Rate) -> Result<Line, Refusal>
    ensures { result ≡ line_answer (per_of rate) labels.now line }
{
    ask(labels.len(), line)?;
    Ok(judge(labels, line, rate))
}

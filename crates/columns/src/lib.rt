// What every call asks of its columns, and what a refusal leaves in them (document 01, "Questions asked of each call").
#![tactic(auto)]

ghost use Rattle.std.specs.Prelude.{◌≡◌, Result};
ghost use Rattle.std.specs.Float.{nan};
ghost use Rattle.folds.specs.Lists.{filled};
ghost use Rattle.columns.specs.Refusals.{number_of, answer_number, lengths_asked, asked, answered};

// Why a call refuses, in the order of the questions, each as its question's number. It prints nothing: C gets the
// number, and the host has a sentence for each.
#[derive(Clone, Copy, Debug, PartialEq, Eq, Hash)]
pub enum Refusal {
    TooLong = 1,
    WrongLength = 2,
    OutOfRange = 3,
    NoTolerance = 4,
    NoSuchSlot = 5,
    OneClass = 6,
    Unsolved = 7,
    NotFinite = 8,
    PastTheEnd = 9,
}

// The question's number.
impl From<Refusal> for u32 {
    ghost from_gives = { λ refusal number. number ≡ number_of refusal };

    fn from(refusal: Refusal) -> u32 {
        refusal as u32
    }
}

// 0 where the call accepts, else the question's number.
pub fn answer_number<T: Copy>(answer: &Result<T, Refusal>) -> u32
    ensures { result ≡ answer_number answer.now }
{
    match answer {
        Ok(_) => 0,
        Err(refusal) => u32::from(*refusal),
    }
}

// The longest list that question 1 lets pass: 2^24 - 1 rows, so that each count is exact as an f32. Functions that
// count require it of their column: a struct for such a list, tried in `qvalue`, made contracts and proofs longer.
pub const LONGEST: usize = 16_777_215;

// What a refusal leaves in every place of a result column: "NaN (floats) or 4,294,967,295 (32-bit whole numbers)".
pub trait HasBlank: Copy {
    ghost blank: { Self };

    fn blank() -> Self
        ensures { result ≡ blank };

    // a copy is the same, and takes no memory
    ghost copies: { (x : Self) → Self.is_infallible x × ((y : Self) → Self.is_clone x y → y ≡ x) };
}

impl HasBlank for f32 {
    ghost copies = { λ x. (tt, λ y e. e) };

    ghost blank = { nan };

    fn blank() -> f32 {
        f32::NAN
    }
}

impl HasBlank for f64 {
    ghost copies = { λ x. (tt, λ y e. e) };

    ghost blank = { nan };

    fn blank() -> f64 {
        f64::NAN
    }
}

impl HasBlank for u32 {
    ghost copies = { λ x. (tt, λ y e. e) };

    ghost blank = { 4294967295 };

    fn blank() -> u32 {
        u32::MAX
    }
}

// A refused result column: the blank in every place.
pub fn blank<T: HasBlank>(column: &mut [T])
    ensures { column.new ≡ filled T.blank column.old }
{
    column.fill(T::blank());
}

// Questions 1 and 2: are the lists short, and do the columns fit them?
pub fn ask_lengths(short: bool, fits: bool) -> Result<(), Refusal>
    ensures { result ≡ lengths_asked short fits }
{
    if !short {
        return Err(Refusal::TooLong);
    }
    if !fits {
        return Err(Refusal::WrongLength);
    }
    Ok(())
}

// The same of a list and of a column with an entry for each of its rows.
pub fn ask(rows: usize, column: usize) -> Result<(), Refusal>
    ensures { result ≡ asked rows column }
{
    ask_lengths(rows <= LONGEST, column == rows)
}

// What the questions say; a refusal leaves the blank in every place of the column.
pub fn or_blank<T: HasBlank>(asked: Result<(), Refusal>, column: &mut [T]) -> Result<(), Refusal>
    ensures answer { result ≡ asked }
    ensures column { column.new ≡ answered asked column.old (λ r. filled T.blank column.old) }
{
    if asked.is_err() {
        blank(column);
    }
    asked
}

// The working columns of a call that ranks: "They hold 0 in every place afterwards, accepted or refused." Two
// parameters and no struct (D64), as in every call that has them.
pub fn clear(keys: &mut [u64], spare: &mut [u64])
    ensures keys { keys.new ≡ filled 0 keys.old }
    ensures spare { spare.new ≡ filled 0 spare.old }
{
    keys.fill(0);
    spare.fill(0);
}

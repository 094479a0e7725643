// The target-decoy counting rule: definitions in specs/, laws in proofs/. `qvalue`, `line_check` and `precursor` have
// its calls.
#![tactic(auto)]

ghost use Rattle.std.specs.Prelude.{◌≡◌};
ghost use Rattle.folds.specs.Lists.{how_many};
ghost use Rattle.counting.specs.Labels.{decoys};

// How many places of a column hold this value.
pub fn how_many<T: PartialEq + Copy>(column: &[T], wanted: T) -> usize
    ensures { result ≡ how_many (λ x. T.eq x wanted) column.now }
{
    let mut count = 0;
    for x in column {
        count += usize::from(*x == wanted);
    }
    count
}

// How many labels are decoys. A label is C's i32, of which -1 alone is a decoy, and no enum.
pub fn count_decoys(labels: &[i32]) -> usize
    ensures { result ≡ decoys labels.now }
{
    how_many(labels, -1)
}

// The q-value of every name, and each feature row's read at its name. That numbers and names are within bounds is what
// the passes before give of their columns, and required of them here.
ghost use Rattle.std.specs.Prelude.{◌≡◌, false, ◌<◌, eqb, pos, length, get_or};
ghost use Rattle.folds.specs.Lists.{filled, tabulated};
ghost use Rattle.folds.specs.Inner.Each.{Each};
ghost use Rattle.ranking.specs.Inner.Layout.{place_of};
ghost use Rattle.competition.specs.Batches.{no_part};
ghost use Rattle.fdr.specs.NameQValues.{name_of};
ghost use Rattle.fdr.specs.Inner.Passes.{written_at_names, read_at_name, NamesInBounds, NumberBits};

use crate::Names;

// The number of a side's name. Which it is stands in an enum that C's number becomes, and no closure.
fn name_of(names: Names, slot: usize, decoy: bool) -> usize
    requires { slot < 4294967296 }
    ensures { result ≡ name_of names slot decoy }
{
    match names {
        Names::Two => slot * 2 + usize::from(decoy),
        Names::One => slot,
    }
}

// The q-value of every name, as bits: 1.0 where no row has it, and a later row's over an earlier one's, as the Rust's
// map overwrites.
pub fn name_q_values(names: Names, keys: &[u64], column: &mut [u64])
    requires { Each (λ k. NamesInBounds (length column.old) (place_of k)) keys.now }
    ensures { let ones = filled 1065353216 column.old in
        column.new ≡ written_at_names names keys.now ones }
{
    column.fill(u64::from(f32::to_bits(1.0)));
    for key in keys {
        let name = name_of(
            names,
            ranking::place_of(*key),
            ranking::decoy_bit(*key) == 1,
        );
        column[name] = u64::from(ranking::upper_of(*key));
    }
}

// A feature row's q-value. A label is C's i32, of which −1 alone is a decoy.
fn row_q(names: Names, column: &[u64], slot: u32, label: i32) -> f32
    requires bits { Each NumberBits column.now }
    requires names_in_bounds { eqb slot no_part ≡ false → NamesInBounds (length column.now) slot }
    ensures { result ≡ read_at_name names column.now slot label }
{
    if slot == competition::NO_PART {
        return 1.0;
    }
    let name = name_of(names, slot as usize, label == -1);
    f32::from_bits(column[name] as u32)
}

// Every feature row's q-value. By index: what is written behind `iter_mut().zip()` is not known to a proof.
pub fn write_rows(names: Names, column: &[u64], slots: &[u32], labels: &[i32], q: &mut [f32])
    requires bits { Each NumberBits column.now }
    requires slots_in_bounds { Each (λ s. eqb s no_part ≡ false → NamesInBounds (length column.now) s) slots.now }
    requires lengths { (length labels.now ≡ length slots.now) × (length q.old ≡ length slots.now) }
    ensures { let slots = slots.now in
        let labels = labels.now in
        let read = read_at_name names column.now in
        q.new ≡ tabulated (λ i. read (get_or slots i 0) (get_or labels i (pos 0))) 0 (length slots) }
{
    for (i, slot) in slots.iter().enumerate() {
        q[i] = row_q(names, column, *slot, labels[i]);
    }
}

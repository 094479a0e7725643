// The keys of a table's seen sides.
ghost use Rattle.std.specs.Prelude.{◌≡◌, ◌++◌, ◌∷◌, [], map, cond, ◌+◌, ◌≤◌, ◌<◌, T, length, take};
ghost use Rattle.std.specs.Float.{binary32};
ghost use Rattle.std.specs.Float.Ieee.{fits};
ghost use Rattle.columns.specs.Refusals.{longest};
ghost use Rattle.ranking.specs.Inner.Layout.{packed, payload};
ghost use Rattle.fdr.specs.Sides.{seen_sides};
ghost use Rattle.fdr.specs.Inner.Passes.{side_key, ScoresFit, PackReady};

use competition::Table;

// A side's key: the slot is its place.
fn side_key(score: f32, slot: usize, decoy: bool) -> u64
    requires { slot ≤ longest }
    ensures key { result ≡ packed score (payload slot decoy) }
    ensures score { T (fits binary32 score) }
{
    ranking::key(score, ranking::payload(slot as u32, decoy))
}

// A key at the next place, which moves on only where the side is seen, so that no mark takes a branch.
fn put(keys: &mut [u64], rows: usize, seen: bool, key: u64) -> usize
    requires { rows < length keys.old }
    ensures few { result ≤ rows + 1 }
    ensures keys { take result keys.new ≡ take rows keys.old ++ cond seen (key ∷ []) [] }
{
    keys[rows] = key;
    rows + usize::from(seen)
}

// The key of every seen side, forward before reverse, slots in order; gives how many there are. By index: the slot is
// its keys' place, and four columns are read at it.
pub fn pack(table: &Table, keys: &mut [u64]) -> usize
    requires { PackReady table.now (length keys.old) }
    ensures few { result ≤ length keys.old }
    ensures keys { take result keys.new ≡ map side_key (seen_sides table.now) }
    ensures scores { ScoresFit table.now (length table.now.forward) }
{
    let mut rows = 0;
    for slot in 0..table.forward.len() {
        let forward_key = side_key(table.forward[slot], slot, false);
        let reverse_key = side_key(table.reverse[slot], slot, true);
        let forward_seen = competition::is_seen(table.forward_seen[slot]);
        rows = put(keys, rows, forward_seen, forward_key);
        let reverse_seen = competition::is_seen(table.reverse_seen[slot]);
        rows = put(keys, rows, reverse_seen, reverse_key);
    }
    rows
}

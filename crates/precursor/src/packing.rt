// Rows as keys. The bound on their number is a `requires` and no struct's: see `columns::LONGEST`.
ghost use Rattle.std.specs.Prelude.{◌≡◌, ℕ, ◌≤◌, ◌<◌, length};
ghost use Rattle.columns.specs.Refusals.{longest};
ghost use Rattle.precursor.specs.Inner.Keyed.{Keyed};

// Each row's key: its narrowed score, its place, and whether it is a decoy, which `decoy_at` tells of a place. Written
// by index: what is written behind `iter_mut().zip()` is not known to a proof.
pub(crate) fn pack<F: Fn(usize) -> bool>(scores: &[f64], decoy_at: F, keys: &mut [u64])
    requires asked { (place : ℕ) → place < length scores.now → F.pre decoy_at place }
    requires lengths { length keys.old ≡ length scores.now }
    requires short { length scores.now ≤ longest }
    ensures { Keyed (F.post decoy_at) scores.now keys.new (length scores.now) }
{
    for (i, score) in scores.iter().enumerate() {
        let payload = ranking::payload(i as u32, decoy_at(i));
        keys[i] = ranking::key(floats::narrow(*score), payload);
    }
}

// Passes over the ranked keys. The bound on their number is a `requires` and no struct's: see `columns::LONGEST`.
ghost use Rattle.std.specs.Prelude.{◌≡◌, map, ◌≤◌, ◌<◌, length};
ghost use Rattle.folds.specs.Inner.Each.{Each};
ghost use Rattle.columns.specs.Refusals.{longest};
ghost use Rattle.floats.specs.Ratio.{one_in};
ghost use Rattle.counting.specs.Labels.{decoys};
ghost use Rattle.counting.specs.QValues.{q_values, targets_at_most};
ghost use Rattle.ranking.specs.Inner.Layout.{place_of, label_of};
ghost use Rattle.ranking.specs.Inner.Rows.{scattered};

// How many keys are of decoys. The bit of each is added, so that no key takes a branch.
fn count_decoys(keys: &[u64]) -> u32
    requires { length keys.now ≤ longest }
    ensures { result ≡ decoys (map label_of keys.now) }
{
    let mut decoy: u32 = 0;
    for key in keys {
        decoy += ranking::decoy_bit(*key);
    }
    decoy
}

// From the last row up: the least ratio so far goes to the row's place. Counts the targets at or under 0.05.
pub fn assign_q_value(keys: &[u64], q: &mut [f32]) -> usize
    requires keys_len_bound { length keys.now ≤ longest }
    requires places_in_bounds { Each (λ key. place_of key < length q.old) keys.now }
    ensures count { let labels = map label_of keys.now in
        result ≡ targets_at_most (one_in 20) labels (q_values labels) }
    ensures column { let ranked = keys.now in
        q.new ≡ scattered (map place_of ranked) (q_values (map label_of ranked)) q.old }
{
    let mut decoy = count_decoys(keys) + 1;
    let mut target = keys.len() as u32 + 1 - decoy;
    let mut q_min = 1.0f32;
    let mut passing: usize = 0;
    for key in keys.iter().rev() {
        let is_decoy = ranking::decoy_bit(*key);
        let ratio = floats::count_to_f32(decoy) / floats::count_to_f32(target);
        q_min = floats::min(q_min, ratio);
        q[ranking::place_of(*key)] = q_min;
        passing += ((q_min <= 0.05) & (is_decoy == 0)) as usize;
        decoy -= is_decoy;
        target -= 1 - is_decoy;
    }
    passing
}

// Each row's place, in ranked order. By index: what is written behind `iter_mut().zip()` is not known to a proof.
pub fn write_order(keys: &[u64], order: &mut [u32])
    requires { length order.old ≡ length keys.now }
    ensures { order.new ≡ map place_of keys.now }
{
    for (i, key) in keys.iter().enumerate() {
        order[i] = ranking::place_of(*key) as u32;
    }
}

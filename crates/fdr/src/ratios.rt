// The passes over the ranked keys: each row's ratio, and then its q-value, takes the score's place in its key. Settings
// and bins are two parameters: a rule of the project passes an estimator by value, beside the bin column.
ghost use Rattle.std.specs.Prelude.{◌≡◌, map, not, ◌<◌, T, length};
ghost use Rattle.std.specs.Float.Ieee.{is_nan};
ghost use Rattle.folds.specs.Inner.Each.{Each};
ghost use Rattle.floats.specs.Constants.{f32_one};
ghost use Rattle.floats.specs.Ratio.{one_in};
ghost use Rattle.counting.specs.QValues.{running_minimum, targets_at_most};
ghost use Rattle.ranking.specs.Sorted.{sorted};
ghost use Rattle.ranking.specs.Inner.Layout.{place_of, label_of};
ghost use Rattle.kde.specs.Bins.{InRange};
ghost use Rattle.fdr.specs.SideQValues.{error_of, side_q};
ghost use Rattle.fdr.specs.Inner.Passes.{key_side, with_number, with_numbers, key_number, capped_ratios};
ghost use Rattle.fdr.specs.Inner.Passes.{HoldsNumber, RatiosReady};

use crate::Settings;
use competition::Table;

// The key with a number in the score's place.
fn with_number(key: u64, q: f32) -> u64
    requires { T (not (is_nan q)) }
    ensures { result ≡ with_number q key }
{
    ranking::with_upper(key, f32::to_bits(q))
}

fn key_number(key: u64) -> f32
    requires { HoldsNumber key }
    ensures { result ≡ key_number key }
{
    f32::from_bits(ranking::upper_of(key))
}

// The score of a key's side.
fn score_of(table: &Table, key: u64) -> f32
    requires { (place_of key < length table.now.forward) × (length table.now.reverse ≡ length table.now.forward) }
    ensures { result ≡ (key_side table.now key).score }
{
    let slot = ranking::place_of(key);
    if ranking::decoy_bit(key) == 1 {
        return table.reverse[slot];
    }
    table.forward[slot]
}

// A score's posterior error, narrowed.
fn error_of(settings: Settings, bins: &[f64], score: f32) -> f32
    requires { InRange (length bins.now) }
    ensures { result ≡ error_of settings bins.now score }
{
    let estimator = settings.estimator;
    floats::narrow(kde::posterior_at(estimator, bins, floats::widen(score)))
}

// Down the ranked rows: the sum of the posterior errors, over the targets so far, takes the place of the score. A ratio
// above 1.0 and a NaN are written as 1.0: the minimum starts there, so that it comes out the same.
fn write_ratios(settings: Settings, bins: &[f64], table: &Table, keys: &mut [u64])
    requires { RatiosReady (length bins.now) table.now keys.old }
    ensures { let ratios = capped_ratios settings bins.now table.now f32_one 0 keys.old in
        keys.new ≡ with_numbers ratios keys.old }
{
    let mut decoy: f32 = 1.0;
    let mut target: u32 = 0;
    for key in keys.iter_mut() {
        let pep = error_of(settings, bins, score_of(table, *key));
        decoy += pep;
        target += 1 - ranking::decoy_bit(*key);
        let q = floats::min(1.0, decoy / floats::count_to_f32(target));
        *key = with_number(*key, q);
    }
}

// From the last row up: the least ratio so far takes the ratio's place. Counts the targets at or under 0.01. By index:
// what is written behind `iter_mut().rev()` is not known to a proof.
fn take_minima(keys: &mut [u64]) -> usize
    requires { Each HoldsNumber keys.old }
    ensures count { let minima = running_minimum (map key_number keys.old) in
        result ≡ targets_at_most (one_in 100) (map label_of keys.old) minima }
    ensures keys { let minima = running_minimum (map key_number keys.old) in
        keys.new ≡ with_numbers minima keys.old }
{
    let mut q_min: f32 = 1.0;
    let mut passing = 0;
    for i in (0..keys.len()).rev() {
        let key = keys[i];
        q_min = floats::min(q_min, key_number(key));
        keys[i] = with_number(key, q_min);
        passing += usize::from((q_min <= 0.01) & (ranking::decoy_bit(key) == 0));
    }
    passing
}

// The sides ranked, and each row's q-value in the place of its score.
pub fn rank(
    settings: Settings,
    bins: &[f64],
    table: &Table,
    keys: &mut [u64],
    spare: &mut [u64],
) -> usize
    requires spare_len { length spare.old ≡ length keys.old }
    requires ratios_ready { RatiosReady (length bins.now) table.now keys.old }
    ensures count { let ranked = sorted keys.old in
        let qs = side_q settings bins.now (map (key_side table.now) ranked) in
        result ≡ targets_at_most (one_in 100) (map label_of ranked) qs }
    ensures keys { let ranked = sorted keys.old in
        let qs = side_q settings bins.now (map (key_side table.now) ranked) in
        keys.new ≡ with_numbers qs ranked }
{
    ranking::sort(keys, spare);
    write_ratios(settings, bins, table, keys);
    take_minima(keys)
}

// sage's ml/qvalue.rs (document 01, module 6): one pass from the first row writes each row's ratio of decoys plus one
// to targets, and one from the last takes the running minimum and counts. Neither branches on a row, so that the order
// of the labels does not change their speed. Both write by index: what is written behind `iter_mut().zip()` or `.rev()`
// is not known to a proof.
#![tactic(auto)]

ghost use Rattle.std.specs.Prelude.{◌≡◌, ◌≤◌, not, T, length};
ghost use Rattle.std.specs.Float.Ieee.{is_nan};
ghost use Rattle.floats.specs.MinMax.{min_number};
ghost use Rattle.columns.specs.Refusals.{longest};
ghost use Rattle.floats.specs.Ratio.{one_in};
ghost use Rattle.counting.specs.QValues.{ratios, running_minimum, count_at_most};
ghost use Rattle.qvalue.specs.Spectrum.{spectrum_run, spectrum_q_value};

use columns::Refusal;

// Decoys plus one, over targets, at each row. The bound is a `requires` and no struct's: see `columns::LONGEST`.
fn write_ratios(labels: &[i32], q: &mut [f32])
    requires q_len { length q.old ≡ length labels.now }
    requires labels_len_bound { length labels.now ≤ longest }
    ensures { q.new ≡ ratios labels.now }
{
    let mut decoy: u32 = 1;
    let mut target: u32 = 0;
    for (i, label) in labels.iter().enumerate() {
        let is_decoy = (*label == -1) as u32;
        decoy += is_decoy;
        target += 1 - is_decoy;
        q[i] = floats::count_to_f32(decoy) / floats::count_to_f32(target);
    }
}

// floats::min where the first number is no NaN: one comparison, and no branch once compiled.
fn lower(low: f32, next: f32) -> f32
    requires { T (not (is_nan low)) }
    ensures { result ≡ min_number low next }
{
    if next < low { next } else { low }
}

// The running minimum from the bottom, and how many are at most 0.01.
fn take_minima(q: &mut [f32]) -> usize
    ensures count { result ≡ count_at_most (one_in 100) (running_minimum q.old) }
    ensures column { q.new ≡ running_minimum q.old }
{
    let mut q_min: f32 = 1.0;
    let mut passing = 0;
    for i in (0..q.len()).rev() {
        q_min = lower(q_min, q[i]);
        q[i] = q_min;
        passing += (q_min <= 0.01) as usize;
    }
    passing
}

// Q-values of a ranked list of spectra, and how many of its rows, decoys too, have one of at most 0.01. A label is C's
// i32, of which -1 alone is a decoy.
pub fn spectrum_q_value(labels: &[i32], q: &mut [f32]) -> Result<usize, Refusal>
    ensures { spectrum_run result q.new ≡ spectrum_q_value labels.now q.old }
{
    let asked = columns::ask(labels.len(), q.len());
    columns::or_blank(asked, q)?;
    write_ratios(labels, q);
    Ok(take_minima(q))
}

// The number of bins for mass errors, which stands in the Rust's score_psms.
ghost use Rattle.std.specs.Prelude.{◌≡◌};
ghost use Rattle.kde.specs.Tolerances.{range_bins, count_answer, bin_count_answer};

use crate::Tolerance;
use columns::Refusal;

// The number of bins from lo to hi, and at least `least`. The Rust's abs() is left out: it changes nothing
// where `least` is above zero.
fn range_bins(lo: f32, hi: f32, least: f32) -> Result<usize, Refusal>
    ensures { result ≡ count_answer (range_bins lo hi least) }
{
    let bins = floats::to_usize(floats::ceil(floats::max(hi - lo, least)));
    if !crate::in_range(bins) {
        return Err(Refusal::OutOfRange);
    }
    Ok(bins)
}

// The number of bins for mass errors within a tolerance.
pub fn bin_count(tolerance: Tolerance) -> Result<usize, Refusal>
    ensures { result ≡ bin_count_answer tolerance }
{
    match tolerance {
        Tolerance::Ppm(lo, hi) => range_bins(lo, hi, 100.0),
        Tolerance::Da(lo, hi) => range_bins(lo, hi, 1000.0),
        Tolerance::Pct(_, _) => Err(Refusal::NoTolerance),
    }
}

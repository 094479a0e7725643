// The -324.0 rule of the Rust's score_psms, for one logarithm of a posterior error and for a column of them.
ghost use Rattle.std.specs.Prelude.{◌≡◌};
ghost use Rattle.kde.specs.Bins.{column_run};
ghost use Rattle.kde.specs.LogErrors.{log_error, log_errors};

use crate::write_each;
use columns::{Refusal, or_blank};

// The host's log10 of a posterior error, narrowed, with -324.0 for an infinity.
pub fn log_error(log10: f64) -> f32
    ensures { result ≡ log_error log10 }
{
    let log = floats::narrow(log10);
    // std's is_infinite, tried here, makes a column a seventh slower
    if (log == f32::INFINITY) | (log == f32::NEG_INFINITY) {
        return -324.0;
    }
    log
}

// The same for a column.
pub fn log_errors(log10s: &[f64], errors: &mut [f32]) -> Result<(), Refusal>
    ensures { column_run result errors.new ≡ log_errors log10s.now errors.old }
{
    let asked = columns::ask(log10s.len(), errors.len());
    or_blank(asked, errors)?;
    write_each(log10s, errors, log_error);
    Ok(())
}

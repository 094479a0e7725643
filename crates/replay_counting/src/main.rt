// Replays recorded answers of the Rust's spectrum_q_value and picked_precursor. data/README.md has the layout.
#![tactic(auto)]

use replay::Recording;
use std::alloc::{AllocError, Global};
use std::io;

// No recorded list of spectra has more rows, and none of precursors.
const MOST_SPECTRA: usize = 256;

const MOST_PRECURSORS: usize = 64;

// Whether the q-values of the next list, and the count, are the recorded ones.
fn same_spectra(alloc: Global, recording: &mut Recording<'_>) -> Result<bool, AllocError> {
    let rows = recording.read_length();
    if rows > MOST_SPECTRA {
        return Ok(false);
    }
    let labels = recording.read_column::<i32>(alloc, rows)?;
    let mut q = vec![in alloc; 0.025f32; rows]?;
    let answer = qvalue::spectrum_q_value(&labels, &mut q);
    let same = recording.same_column(&q);
    Ok(same & recording.same_count(answer))
}

// The same of precursors; the working columns hold 0 afterwards.
fn same_precursors(alloc: Global, recording: &mut Recording<'_>) -> Result<bool, AllocError> {
    let rows = recording.read_length();
    if rows > MOST_PRECURSORS {
        return Ok(false);
    }
    let labels = recording.read_column::<i32>(alloc, rows)?;
    let scores = recording.read_column::<f64>(alloc, rows)?;
    let mut keys = vec![in alloc; 7u64; rows]?;
    let mut spare = vec![in alloc; 7u64; rows]?;
    let mut q = vec![in alloc; 0.025f32; rows]?;
    let answer = precursor::picked_precursor(&labels, &scores, &mut keys, &mut spare, &mut q);
    let same = recording.same_column(&q);
    let counted = recording.same_count(answer);
    Ok(same & counted & replay::holds_only(&keys, 0) & replay::holds_only(&spare, 0))
}

// Every case with a flipped bit must differ.
fn main(rt: HostRuntime) -> io::Result<()> {
    replay::replayed(&rt, "spectrum_q_value", same_spectra)?;
    replay::replayed(&rt, "spectrum_q_value.flipped", same_spectra)?;
    replay::replayed(&rt, "picked_precursor", same_precursors)?;
    replay::replayed(&rt, "picked_precursor.flipped", same_precursors)
}

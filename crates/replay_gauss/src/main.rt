// Replays recorded answers of the Rust's Gauss::solve; data/README.md has the layout.
#![tactic(auto)]

use replay::Recording;
use std::io;

// The next row of a system of this size, with garbage past the size. Its places are as many as `solve` takes.
fn read_row(recording: &mut Recording<'_>, size: usize) -> [f64; 20] {
    let mut row = [1.5f64; 20];
    recording.read_first(size, &mut row);
    row
}

fn read_left(recording: &mut Recording<'_>, size: usize) -> [[f64; 20]; 20] {
    let mut left = [[-2.5f64; 20]; 20];
    for row in left.iter_mut().take(size) {
        *row = read_row(recording, size);
    }
    left
}

// Whether the answer has the next numbers, and 0 past the size.
fn same_values(recording: &mut Recording<'_>, size: usize, values: &[f64; 20]) -> bool {
    if size > values.len() {
        return false;
    }
    let same = recording.same_column(&values[..size]);
    same & replay::holds_only(&values[size..], 0.0)
}

// Whether the next system has the recorded answer, or the recorded refusal and twenty NaN, as C gets them.
fn same_system(recording: &mut Recording<'_>) -> bool {
    let size = recording.read_length();
    let left = read_left(recording, size);
    let right = read_row(recording, size);
    let recorded = recording.read::<u32>();
    let answer = gauss::solve(left, right, size);
    let values = gauss::solved_values(answer);
    match answer {
        Ok(_) => same_values(recording, size, &values) & (recorded == 0),
        Err(refusal) => { replay::holds_only(&values, f64::NAN) & (recorded == u32::from(refusal)) }
    }
}

// Every case with a flipped bit must differ.
fn main(rt: HostRuntime) -> io::Result<()> {
    replay::replayed(&rt, "solve", |_, recording| Ok(same_system(recording)))?;
    replay::replayed(
        &rt,
        "solve.flipped",
        |_, recording| Ok(same_system(recording)),
    )
}

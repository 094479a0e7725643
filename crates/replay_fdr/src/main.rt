// Replays recorded answers of the Rust's picked_protein and picked_protein_group. data/README.md has the layout.
#![tactic(auto)]

use competition::{Batch, Table, TableMut};
use fdr::{Names, Settings};
use kde::Estimator;
use replay::Recording;
use std::alloc::{AllocError, Global};
use std::io;

// No recorded case has more bins, slots or rows.
const MOST_BINS: usize = 1000;

const MOST_SLOTS: usize = 210;

const MOST_ROWS: usize = 240;

// The rows of a case.
#[derive(Drop)]
struct Rows {
    slots: Vec<u32>,
    labels: Vec<i32>,
    scores: Vec<f32>,
}

impl Rows {
    fn read(alloc: Global, recording: &mut Recording<'_>, n: usize) -> Result<Rows, AllocError> {
        Ok(Rows {
            slots: recording.read_column(alloc, n)?,
            labels: recording.read_column(alloc, n)?,
            scores: recording.read_column(alloc, n)?,
        })
    }

    fn batch(&self) -> Batch<'_> {
        Batch {
            slots: &self.slots,
            labels: &self.labels,
            scores: &self.scores,
        }
    }
}

// The columns of a table, as long as a case says; `table` and `table_mut` borrow each of them, to read and to write.
// Those of known_points are arrays: a struct for both would need a type for each column.
#[derive(Drop)]
struct Slots {
    forward: Vec<f32>,
    reverse: Vec<f32>,
    forward_seen: Vec<u32>,
    reverse_seen: Vec<u32>,
}

impl Slots {
    fn garbage(alloc: Global, slots: usize) -> Result<Slots, AllocError> {
        Ok(Slots {
            forward: vec![in alloc; 9.5f32; slots]?,
            reverse: vec![in alloc; 9.5f32; slots]?,
            forward_seen: vec![in alloc; 1u32; slots]?,
            reverse_seen: vec![in alloc; 1u32; slots]?,
        })
    }

    fn table(&self) -> Table<'_> {
        Table {
            forward: &self.forward,
            reverse: &self.reverse,
            forward_seen: &self.forward_seen,
            reverse_seen: &self.reverse_seen,
        }
    }

    fn table_mut(&mut self) -> TableMut<'_> {
        TableMut {
            forward: &mut self.forward,
            reverse: &mut self.reverse,
            forward_seen: &mut self.forward_seen,
            reverse_seen: &mut self.reverse_seen,
        }
    }
}

// Whether the q-values of a table with these rows, and their count, are the recorded ones, and the working columns
// hold 0.
fn same_q_values(
    alloc: Global,
    recording: &mut Recording<'_>,
    settings: Settings,
    bins: &[f64],
    table: &Table<'_>,
    rows: &Rows,
) -> Result<bool, AllocError> {
    let sides = table.forward.len() * 2;
    let mut keys = vec![in alloc; 7u64; sides]?;
    let mut spare = vec![in alloc; 7u64; sides]?;
    let mut q = vec![in alloc; 0.025f32; rows.slots.len()]?;
    let answer = fdr::assign_q_value(
        settings,
        bins,
        table,
        &rows.slots,
        &rows.labels,
        &mut keys,
        &mut spare,
        &mut q,
    );
    let same = recording.same_column(&q);
    let counted = recording.same_count(answer);
    Ok(same & counted & replay::holds_only(&keys, 0) & replay::holds_only(&spare, 0))
}

// Whether the next table has the recorded answers.
fn same_case(alloc: Global, recording: &mut Recording<'_>) -> Result<bool, AllocError> {
    // numbers, as data/README.md has them
    let names = match recording.read::<u32>() {
        2 => Names::Two,
        _ => Names::One,
    };
    let n = recording.read_length();
    if n > MOST_BINS {
        return Ok(false);
    }
    let bins = recording.read_column::<f64>(alloc, n)?;
    let estimator = Estimator {
        min_score: recording.read(),
        score_step: recording.read(),
    };
    let slots = recording.read_length();
    let n = recording.read_length();
    if n > MOST_ROWS {
        return Ok(false);
    }
    let rows = Rows::read(alloc, recording, n)?;
    if slots > MOST_SLOTS {
        return Ok(false);
    }
    let mut slots = Slots::garbage(alloc, slots)?;
    let fresh = competition::fresh_table(slots.table_mut());
    let added = competition::add_rows(&rows.batch(), slots.table_mut());
    let settings = Settings { names, estimator };
    let same = same_q_values(alloc, recording, settings, &bins, &slots.table(), &rows)?;
    Ok(fresh.is_ok() & added.is_ok() & same)
}

// Every case with a flipped bit must differ.
fn main(rt: HostRuntime) -> io::Result<()> {
    replay::replayed(&rt, "picked_protein", same_case)?;
    replay::replayed(&rt, "picked_protein.flipped", same_case)?;
    replay::replayed(&rt, "picked_protein_group", same_case)?;
    replay::replayed(&rt, "picked_protein_group.flipped", same_case)
}

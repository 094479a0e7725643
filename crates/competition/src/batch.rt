// A batch of rows: what it asks of a table, and its rows added, one after the other.
ghost use Rattle.std.specs.Prelude.{◌≡◌};
ghost use Rattle.competition.specs.Tables.{table_of, table_run};
ghost use Rattle.competition.specs.Batches.{allowed, all_allowed, batch_short, batch_fits, with_row, added};
ghost use Rattle.competition.specs.Batches.{batch_asked, add_rows};
ghost use Rattle.competition.specs.Borrowed.{table_before, table_after};
ghost use Rattle.competition.specs.Inner.Ready.{RowReady, BatchReady};

use crate::table::{Table, TableMut};
use crate::{Competition, NO_PART};
use columns::Refusal;
use std::marker::Model;

// A batch's three columns, one entry per row, as C has them. A contract sees the record of them. A label of -1 is a
// decoy: labels are C's numbers.
#[derive(Drop)]
pub struct Batch<'a> {
    pub slots: &'a [u32],
    pub labels: &'a [i32],
    pub scores: &'a [f32],
}

impl<'a> Model for Batch<'a> {
    ghost use Rattle.competition.specs.Batches.{Batch as Columns, batch_of};

    ghost Value = { Columns };

    ghost view = { λ b. batch_of b.slots.now b.labels.now b.scores.now };
}

impl<'a> Batch<'a> {
    // Question 1 of a batch's columns.
    pub fn is_short(&self) -> bool
        ensures { result ≡ batch_short self.now }
    {
        (self.slots.len() <= columns::LONGEST)
            & ((self.labels.len() <= columns::LONGEST) & (self.scores.len() <= columns::LONGEST))
    }

    // Question 2 of a batch's columns: one entry per row.
    pub fn fits(&self) -> bool
        ensures { result ≡ batch_fits self.now }
    {
        (self.labels.len() == self.slots.len()) & (self.scores.len() == self.slots.len())
    }
}

// Question 5 of one row.
fn slot_allowed(slot: u32, count: usize) -> bool
    ensures { result ≡ allowed count slot }
{
    ((slot as usize) < count) | (slot == NO_PART)
}

// Question 5: is each slot below the slot count, or the no-part mark? It reads on behind a slot that is not allowed, so
// that several are tested at a time.
pub fn slots_allowed(slots: &[u32], count: usize) -> bool
    ensures { result ≡ all_allowed count slots.now }
{
    let mut all = true;
    for slot in slots {
        all = all & slot_allowed(*slot, count);
    }
    all
}

// Questions 1, 2 and 5: may this batch be added to this table?
pub fn ask_batch(batch: &Batch, table: &Table) -> Result<(), Refusal>
    ensures { result ≡ batch_asked batch.now table.now }
{
    let short = batch.is_short() & table.is_short();
    let fits = batch.fits() & table.fits();
    columns::ask_lengths(short, fits)?;
    if !slots_allowed(batch.slots, table.slots()) {
        return Err(Refusal::NoSuchSlot);
    }
    Ok(())
}

// A row raises its side and marks it seen.
fn add_row(slot: u32, label: i32, score: f32, table: TableMut)
    requires { RowReady slot (table_before table) }
    ensures { table_after table.exit ≡ with_row slot label score (table_before table.entry) }
{
    if slot == NO_PART {
        return;
    }
    let at = slot as usize;
    let entry = Competition {
        forward: table.forward[at],
        reverse: table.reverse[at],
    };
    if label == -1 {
        table.reverse[at] = entry.raise_reverse(score).reverse;
        table.reverse_seen[at] = 1;
        return;
    }
    table.forward[at] = entry.raise_forward(score).forward;
    table.forward_seen[at] = 1;
}

// Adds a batch of rows to a table: each row raises its slot's side by max and marks it seen.
pub fn add_rows(batch: &Batch, table: TableMut) -> Result<(), Refusal>
    ensures { table_run result (table_after table.exit) ≡ add_rows batch.now (table_before table.entry) }
{
    ask_batch(batch, &table.read())?;
    // taken apart: of a struct of `&mut`s that is handed on whole, what its columns hold afterwards is lost
    let TableMut {
        forward,
        reverse,
        forward_seen,
        reverse_seen,
    } = table;
    let rows = batch.slots.iter().zip(batch.labels).zip(batch.scores);
    for ((slot, label), score) in rows {
        add_row(
            *slot,
            *label,
            *score,
            TableMut {
                forward,
                reverse,
                forward_seen,
                reverse_seen,
            },
        );
    }
    Ok(())
}

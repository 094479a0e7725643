// The columns of a table, a table's questions, and the table in which no side is seen.
ghost use Rattle.std.specs.Prelude.{◌≡◌, length};
ghost use Rattle.competition.specs.Tables.{is_seen, table_short, table_fits, table_run, fresh_asked, fresh_table};
ghost use Rattle.competition.specs.Borrowed.{table_before, table_after};

use crate::Competition;
use columns::Refusal;
use std::marker::Model;

// A table's four columns, one entry per slot, as C has them: of any lengths, of which questions are asked, so that what
// works on them requires that they match. A contract sees the record of them.
#[derive(Drop)]
pub struct Table<'a> {
    pub forward: &'a [f32],
    pub reverse: &'a [f32],
    pub forward_seen: &'a [u32],
    pub reverse_seen: &'a [u32],
}

impl<'a> Model for Table<'a> {
    ghost use Rattle.competition.specs.Tables.{Table as Columns, table_of};

    ghost Value = { Columns };

    ghost view = { λ t. table_of t.forward.now t.reverse.now t.forward_seen.now t.reverse_seen.now };
}

impl<'a> Table<'a> {
    // One entry per slot.
    pub fn slots(&self) -> usize
        ensures { result ≡ length self.now.forward }
    {
        self.forward.len()
    }

    // Question 1 of a table's columns.
    pub fn is_short(&self) -> bool
        ensures { result ≡ table_short self.now }
    {
        (self.forward.len() <= columns::LONGEST)
            & ((self.reverse.len() <= columns::LONGEST)
                & ((self.forward_seen.len() <= columns::LONGEST)
                    & (self.reverse_seen.len() <= columns::LONGEST)))
    }

    // Question 2 of a table's columns: one entry per slot.
    pub fn fits(&self) -> bool
        ensures { result ≡ table_fits self.now }
    {
        let slots = self.forward.len();
        (self.reverse.len() == slots)
            & ((self.forward_seen.len() == slots) & (self.reverse_seen.len() == slots))
    }
}

// A table's four columns, to be written. It goes into a call by value, so that the caller knows what its columns hold
// afterwards.
#[derive(Drop)]
pub struct TableMut<'a> {
    pub forward: &'a mut [f32],
    pub reverse: &'a mut [f32],
    pub forward_seen: &'a mut [u32],
    pub reverse_seen: &'a mut [u32],
}

impl<'a> TableMut<'a> {
    // The same columns, to be read.
    pub fn read(&self) -> Table
        ensures { result ≡ table_before self.now }
    {
        Table {
            forward: self.forward,
            reverse: self.reverse,
            forward_seen: self.forward_seen,
            reverse_seen: self.reverse_seen,
        }
    }
}

// "any lent mark but 0 reads as seen": a mark is a number and no bool, since it comes from C.
pub fn is_seen(mark: u32) -> bool
    ensures { result ≡ is_seen mark }
{
    mark != 0
}

// Questions 1 and 2.
fn ask_fresh(table: &Table) -> Result<(), Refusal>
    ensures { result ≡ fresh_asked table.now }
{
    columns::ask_lengths(table.is_short(), table.fits())
}

// The table in which no side is seen.
pub fn fresh_table(table: TableMut) -> Result<(), Refusal>
    ensures { table_run result (table_after table.exit) ≡ fresh_table (table_before table.entry) }
{
    ask_fresh(&table.read())?;
    let fresh = Competition::default();
    table.forward.fill(fresh.forward);
    table.reverse.fill(fresh.reverse);
    table.forward_seen.fill(0);
    table.reverse_seen.fill(0);
    Ok(())
}

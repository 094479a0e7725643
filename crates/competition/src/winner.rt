// Who wins each slot.
ghost use Rattle.std.specs.Prelude.{◌≡◌, length};
ghost use Rattle.folds.specs.Lists.{tabulated};
ghost use Rattle.competition.specs.Winners.{winner, decoy_flag, winners_run, winners_asked, winners};
ghost use Rattle.competition.specs.Inner.Ready.{WinnersReady};

use crate::Competition;
use crate::table::{Table, is_seen};
use columns::{HasBlank, Refusal};

// Questions 1 and 2, of the table and the lengths of both result columns.
fn ask_winners(table: &Table, scores: usize, is_decoy: usize) -> Result<(), Refusal>
    ensures { result ≡ winners_asked table.now scores is_decoy }
{
    let short = table.is_short();
    let slots = table.slots();
    let fits = table.fits() & ((scores == slots) & (is_decoy == slots));
    columns::ask_lengths(short, fits)
}

// Each slot's score() and is_decoy(); the blanks for an unseen slot. A flag is a number, 1 or 0, since the column is
// C's and an unseen slot has neither. By index: six columns are read or written at each slot.
fn write_winners(table: &Table, scores: &mut [f32], is_decoy: &mut [u32])
    requires { WinnersReady table.now (length scores.old) (length is_decoy.old) }
    ensures scores { scores.new ≡ tabulated (winner table.now) 0 (length table.now.forward) }
    ensures flags { is_decoy.new ≡ tabulated (decoy_flag table.now) 0 (length table.now.forward) }
{
    for slot in 0..table.forward.len() {
        scores[slot] = f32::blank();
        is_decoy[slot] = u32::blank();
        if !(is_seen(table.forward_seen[slot]) | is_seen(table.reverse_seen[slot])) {
            continue;
        }
        let entry = Competition {
            forward: table.forward[slot],
            reverse: table.reverse[slot],
        };
        scores[slot] = entry.score();
        is_decoy[slot] = u32::from(entry.is_decoy());
    }
}

// score() and is_decoy() of every seen slot, from which the host takes its densities. Two result columns, numbers as C
// has them, and no struct, which would be made here to be taken apart in three functions.
pub fn winners(table: &Table, scores: &mut [f32], is_decoy: &mut [u32]) -> Result<(), Refusal>
    ensures { winners_run result scores.new is_decoy.new ≡ winners table.now scores.old is_decoy.old }
{
    if let Err(refusal) = ask_winners(table, scores.len(), is_decoy.len()) {
        columns::blank(scores);
        columns::blank(is_decoy);
        return Err(refusal);
    }
    write_winners(table, scores, is_decoy);
    Ok(())
}

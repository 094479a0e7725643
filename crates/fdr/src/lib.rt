// assign_q_value of sage's fdr.rs (document 01, module 5), for picked_protein and picked_protein_group: a competition's
// seen sides are ranked, their posterior errors summed, and every feature row gets the q-value of its name.
#![tactic(auto)]

mod naming;
mod packing;
mod ratios;

ghost use Rattle.std.specs.Prelude.{◌≡◌, length};
ghost use Rattle.folds.specs.Lists.{filled};
ghost use Rattle.columns.specs.Refusals.{ranked_run};
ghost use Rattle.fdr.specs.SideQValues.{passing};
ghost use Rattle.fdr.specs.NameQValues.{rows_q, assign_asked, assign_q_value};
ghost use Rattle.fdr.specs.Inner.Passes.{AssignReady};

use columns::Refusal;
use competition::Table;
use kde::Estimator;
use naming::{name_q_values, write_rows};
use packing::pack;
use ratios::rank;

// How many names a slot's two sides have: two in picked_protein with generated decoys, one in picked_protein_group.
#[derive(Clone, Copy, Debug, PartialEq, Eq, Hash)]
pub enum Names {
    Two,
    One,
}

// What a call is set to: the names, and the estimator that gives the posterior errors.
#[derive(Clone, Copy, Debug, PartialEq)]
pub struct Settings {
    pub names: Names,
    pub estimator: Estimator,
}

// Questions 1, 2, 3 and 5, in this order.
fn ask(
    bins: usize,
    table: &Table,
    slots: &[u32],
    labels: usize,
    keys: usize,
    spare: usize,
    q: usize,
) -> Result<(), Refusal>
    ensures { result ≡ assign_asked table.now bins slots.now labels keys spare q }
{
    let rows = slots.len();
    let short = table.is_short() & ((rows <= columns::LONGEST) & (labels <= columns::LONGEST));
    let sides = 2 * table.forward.len();
    let fits = table.fits()
        & (((labels == rows) & (q == rows)) & ((keys == sides) & (spare == sides)));
    columns::ask_lengths(short, fits)?;
    if !kde::in_range(bins) {
        return Err(Refusal::OutOfRange);
    }
    if !competition::slots_allowed(slots, table.slots()) {
        return Err(Refusal::NoSuchSlot);
    }
    Ok(())
}

// The seen sides ranked, and every row's q-value read at its name. `spare` holds the names' q-values once the ranking
// is done with it.
fn assigned(
    settings: Settings,
    bins: &[f64],
    table: &Table,
    slots: &[u32],
    labels: &[i32],
    keys: &mut [u64],
    spare: &mut [u64],
    q: &mut [f32],
) -> usize
    requires { AssignReady table.now (length bins.now) slots.now (length labels.now)
        (length keys.old) (length spare.old) (length q.old) }
    ensures count { result ≡ passing settings bins.now table.now }
    ensures column { q.new ≡ rows_q settings bins.now table.now slots.now labels.now }
    ensures keys { keys.new ≡ filled 0 keys.old }
    ensures spare { spare.new ≡ filled 0 spare.old }
{
    let names = settings.names;
    let rows = pack(table, keys);
    let passing = rank(settings, bins, table, &mut keys[..rows], &mut spare[..rows]);
    name_q_values(names, &keys[..rows], spare);
    write_rows(names, spare, slots, labels, q);
    columns::clear(keys, spare);
    passing
}

// Q-values of feature rows by their slots' names, and how many targets among the ranked rows have one of at most 0.01.
// `keys` and `spare`, two entries per slot, are C's working columns, since the library takes no memory; they hold 0
// afterwards. `slots` and `labels` are parameters, as all columns of a call that ranks (D64).
pub fn assign_q_value(
    settings: Settings,
    bins: &[f64],
    table: &Table,
    slots: &[u32],
    labels: &[i32],
    keys: &mut [u64],
    spare: &mut [u64],
    q: &mut [f32],
) -> Result<usize, Refusal>
    ensures { ranked_run result keys.new spare.new q.new
        ≡ assign_q_value settings bins.now table.now slots.now labels.now keys.old spare.old q.old }
{
    if let Err(refusal) = ask(
        bins.len(),
        table,
        slots,
        labels.len(),
        keys.len(),
        spare.len(),
        q.len(),
    ) {
        columns::clear(keys, spare);
        columns::blank(q);
        return Err(refusal);
    }
    Ok(assigned(settings, bins, table, slots, labels, keys, spare, q))
}

// Competition of sage's fdr.rs (document 01, module 5): the table of a forward and a reverse score for each slot, with
// its marks. A table is four columns, one entry per slot; rows are added to it batch by batch.
#![tactic(auto)]

mod batch;
mod table;
mod winner;

ghost use Rattle.std.specs.Prelude.{◌≡◌};
ghost use Rattle.std.specs.Float.Ieee.{le};
ghost use Rattle.floats.specs.MinMax.{max_number};
ghost use Rattle.floats.specs.Constants.{f32_min};

pub use batch::{Batch, add_rows, ask_batch, slots_allowed};
pub use table::{Table, TableMut, fresh_table, is_seen};
pub use winner::winners;

// A row that takes no part has this slot: a mark and no Option, since C's column has one u32 for each row.
pub const NO_PART: u32 = u32::MAX;

// One slot's two sides.
#[derive(Clone, Copy, Debug, PartialEq)]
pub struct Competition {
    pub forward: f32,
    pub reverse: f32,
}

impl Competition {
    // the score of an unseen side
    pub const UNSEEN: f32 = f32::MIN;

    // Each side has a method of its own, as it has a field.
    pub fn raise_forward(mut self, score: f32) -> Self
        ensures { result ≡ record { forward = max_number self.forward score; reverse = self.reverse } }
    {
        self.forward = floats::max(self.forward, score);
        self
    }

    pub fn raise_reverse(mut self, score: f32) -> Self
        ensures { result ≡ record { forward = self.forward; reverse = max_number self.reverse score } }
    {
        self.reverse = floats::max(self.reverse, score);
        self
    }

    pub fn score(self) -> f32
        ensures { result ≡ max_number self.forward self.reverse }
    {
        floats::max(self.forward, self.reverse)
    }

    pub fn is_decoy(self) -> bool
        ensures { result ≡ le self.forward self.reverse }
    {
        self.reverse >= self.forward
    }
}

// By hand: derived, both sides would start at 0.
impl Default for Competition {
    ghost is_default = { λ entry. entry ≡ record { forward = f32_min; reverse = f32_min } };

    fn default() -> Self {
        Self {
            forward: Self::UNSEEN,
            reverse: Self::UNSEEN,
        }
    }
}

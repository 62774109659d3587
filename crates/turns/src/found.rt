// What is found by running the turns of the grid, one after another.
use crate::counts::Counts;
use crate::kept::Kept;
use crate::ran::Ran;
use crate::rows::{ROW_COUNT, ROWS};

#[derive(Clone, Copy)]
pub struct Found {
    // In the order of the rows; None where no turn of the row was run.
    pub kept: [Option<Kept>; ROW_COUNT],
    pub counts: Counts,
}

impl Default for Found {
    fn default() -> Self {
        Found {
            kept: [None; ROW_COUNT],
            counts: Counts::default(),
        }
    }
}

impl Found {
    pub fn add(&mut self, ran: Ran) {
        let one = Kept::of(ran);
        for (row, kept) in ROWS.iter().zip(self.kept.iter_mut()) {
            if row.has(ran.turn) {
                *kept = Some(kept.map_or(one, |before| before.and(one)));
            }
        }
        self.counts.add(ran);
    }
}

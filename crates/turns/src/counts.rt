// The sentences under the table, whose numbers are counted over all turns of the grid.
use crate::ran::Ran;
use crate::rows::{is_momentum, rows_of};
use std::fmt;

#[derive(Clone, Copy, Default)]
pub struct Counts {
    run: usize,
    refused: usize,
    // Of no row, or of more than one.
    stray: usize,
    other_than_momentum: usize,
    // Of those, the ones that end with the bounce flag set.
    bounced: usize,
}

impl Counts {
    pub fn add(&mut self, ran: Ran) {
        let other_than_momentum = !is_momentum(ran.turn.source);
        count(&mut self.run, true);
        count(&mut self.refused, ran.refused);
        count(&mut self.stray, rows_of(ran.turn) != 1);
        count(&mut self.other_than_momentum, other_than_momentum);
        count(&mut self.bounced, other_than_momentum && ran.bounced);
    }
}

// Saturating for the proof: a grid has far fewer turns.
fn count(counted: &mut usize, is_one: bool) {
    *counted = counted.saturating_add(usize::from(is_one));
}

impl fmt::Display for Counts {
    fn fmt<W: fmt::Write>(&self, f: &mut fmt::Formatter<W>) -> fmt::Result {
        let Counts {
            run,
            refused,
            stray,
            other_than_momentum,
            bounced,
        } = *self;
        write!(f, "{run} turns were run, ")?;
        write_count(f, refused, "none refused", " refused")?;
        write!(f, "; ")?;
        write_count(
            f,
            stray,
            "each belongs to exactly one row",
            " belong to no row or to more than one",
        )?;
        write!(
            f,
            ". Of the {other_than_momentum} from another source than Momentum "
        )?;
        write_count(
            f,
            bounced,
            "all end with the bounce flag clear",
            " end with the bounce flag set",
        )?;
        write!(f, ".")
    }
}

// The words for none, or how many and the words for some.
fn write_count<W: fmt::Write>(
    f: &mut fmt::Formatter<W>,
    count: usize,
    none: &str,
    some: &str,
) -> fmt::Result {
    if count == 0 {
        return write!(f, "{none}");
    }
    write!(f, "{count}{some}")
}

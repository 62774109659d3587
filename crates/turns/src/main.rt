// The truth table of who takes a wheel turn. A row's conditions, and by what its turns are taken or not, are written down; whether they are
// taken and what they leave is found by running axis::call::wheel on every turn of the grid that belongs to the row.
#![tactic(auto)]

mod counts;
mod found;
mod grid;
mod kept;
mod places;
mod ran;
mod rows;

use grid::run_grid;
use kept::Kept;
use rows::{ROWS, Row};
use std::io::{LineWriter, Write};
use std::{fmt, io};

// A row with what its turns leave, each cell as wide as its column.
// Stays: a cell by name() and no Display. A &str is padded to its column.
#[derive(Drop)]
struct Line<'a> {
    row: &'a Row,
    kept: Option<Kept>,
}

impl fmt::Display for Line<'_> {
    fn fmt<W: fmt::Write>(&self, f: &mut fmt::Formatter<W>) -> fmt::Result {
        let Line { row, kept } = *self;
        let sources = row.sources.name();
        let rubber_band = row.rubber_band.name_of("on", "off");
        let can_move = row.can_move.name();
        write!(f, "| {sources:9} | {rubber_band:11} | {can_move:8} ")?;
        let outside = row.outside.name_of("yes", "no");
        let parent = row.parent.name_of("yes", "no");
        let bounced = row.bounced.name_of("yes", "no");
        write!(f, "| {outside:7} | {parent:6} | {bounced:7} ")?;
        let taken = kept.map_or("unrun", |kept| kept.taken().name());
        let leaves = kept.map_or("unrun", |kept| kept.leaves().name());
        let by = row.by.name();
        write!(f, "| {taken:5} | {leaves:32} | {by:10} |")
    }
}

const HEAD: &str = "\
| source    | rubber band | can move | outside | parent | bounced | taken | leaves                           | by         |
|-----------|-------------|----------|---------|--------|---------|-------|----------------------------------|------------|";

fn main(rt: HostRuntime) -> io::Result<()> {
    let mut out = LineWriter::new(rt.alloc(), io::writer(&rt))?;
    let found = run_grid();
    writeln!(out, "{HEAD}")?;
    for (row, kept) in ROWS.iter().zip(found.kept) {
        writeln!(out, "{}", Line { row, kept })?;
    }
    writeln!(out, "\n{}", found.counts)
}

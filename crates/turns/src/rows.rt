// The rows of the table: which turns belong to each, and by what it says that they are taken or not.
use crate::grid::Turn;
use crate::places::CanMove;
use axis::WheelSource;

#[derive(Clone, Copy)]
pub enum Sources {
    All,
    // None, Unknown and Wheel.
    Others,
    // Trackpad and Momentum.
    Trackpads,
    Trackpad,
    Momentum,
}

// What a row asks of a flag.
// Stays: an enum of its own. A row would say Some(false) where it wants no.
#[derive(Clone, Copy)]
pub enum Wanted {
    Any,
    Yes,
    No,
}

// Why a turn is taken, or that nobody takes it.
#[derive(Clone, Copy)]
pub enum By {
    DeltaZero,
    Can,
    Nobody,
    Overscroll,
    NoParent,
    Corner,
}

#[derive(Clone, Copy)]
pub struct Row {
    pub sources: Sources,
    pub rubber_band: Wanted,
    pub can_move: CanMove,
    pub outside: Wanted,
    pub parent: Wanted,
    pub bounced: Wanted,
    pub by: By,
}

// Whatever the source, the flags and the outside are, where the delta is 0.
const DELTA_ZERO: Row = Row {
    sources: Sources::All,
    rubber_band: Wanted::Any,
    can_move: CanMove::DeltaZero,
    outside: Wanted::Any,
    parent: Wanted::Any,
    bounced: Wanted::Any,
    by: By::DeltaZero,
};

pub const ROW_COUNT: usize = 11;

pub const ROWS: [Row; ROW_COUNT] = [
    DELTA_ZERO,
    Row {
        rubber_band: Wanted::No,
        can_move: CanMove::Yes,
        by: By::Can,
        ..DELTA_ZERO
    },
    Row {
        rubber_band: Wanted::No,
        can_move: CanMove::No,
        by: By::Nobody,
        ..DELTA_ZERO
    },
    Row {
        sources: Sources::Others,
        rubber_band: Wanted::Yes,
        can_move: CanMove::Yes,
        by: By::Can,
        ..DELTA_ZERO
    },
    Row {
        sources: Sources::Others,
        rubber_band: Wanted::Yes,
        can_move: CanMove::No,
        by: By::Nobody,
        ..DELTA_ZERO
    },
    Row {
        sources: Sources::Trackpads,
        rubber_band: Wanted::Yes,
        can_move: CanMove::Yes,
        by: By::Can,
        ..DELTA_ZERO
    },
    Row {
        sources: Sources::Trackpads,
        rubber_band: Wanted::Yes,
        can_move: CanMove::No,
        outside: Wanted::Yes,
        by: By::Overscroll,
        ..DELTA_ZERO
    },
    Row {
        sources: Sources::Trackpads,
        rubber_band: Wanted::Yes,
        can_move: CanMove::No,
        outside: Wanted::No,
        parent: Wanted::No,
        by: By::NoParent,
        ..DELTA_ZERO
    },
    Row {
        sources: Sources::Trackpad,
        rubber_band: Wanted::Yes,
        can_move: CanMove::No,
        outside: Wanted::No,
        parent: Wanted::Yes,
        by: By::Nobody,
        ..DELTA_ZERO
    },
    Row {
        sources: Sources::Momentum,
        rubber_band: Wanted::Yes,
        can_move: CanMove::No,
        outside: Wanted::No,
        parent: Wanted::Yes,
        bounced: Wanted::Yes,
        by: By::Corner,
        ..DELTA_ZERO
    },
    Row {
        sources: Sources::Momentum,
        rubber_band: Wanted::Yes,
        can_move: CanMove::No,
        outside: Wanted::No,
        parent: Wanted::Yes,
        bounced: Wanted::No,
        by: By::Nobody,
        ..DELTA_ZERO
    },
];

// How many rows the turn belongs to.
pub fn rows_of(turn: Turn) -> usize {
    ROWS.iter().filter(|row| row.has(turn)).count()
}

impl Row {
    // Whether the turn belongs to the row.
    pub fn has(&self, turn: Turn) -> bool {
        self.sources.has(turn.source)
            && self.rubber_band.allows(turn.rubber_band)
            && self.can_move == turn.place.can_move
            && self.outside.allows(turn.place.outside)
            && self.parent.allows(turn.parent)
            && self.bounced.allows(turn.bounced)
    }
}

impl Sources {
    fn has(self, source: Option<WheelSource>) -> bool {
        let trackpad = source == Some(WheelSource::Trackpad);
        let momentum = is_momentum(source);
        match self {
            Sources::All => true,
            Sources::Others => !trackpad && !momentum,
            Sources::Trackpads => trackpad || momentum,
            Sources::Trackpad => trackpad,
            Sources::Momentum => momentum,
        }
    }

    pub fn name(self) -> &'static str {
        match self {
            Sources::All => "any",
            Sources::Others => "others",
            Sources::Trackpads => "trackpads",
            Sources::Trackpad => "Trackpad",
            Sources::Momentum => "Momentum",
        }
    }
}

impl Wanted {
    fn allows(self, flag: bool) -> bool {
        match self {
            Wanted::Any => true,
            Wanted::Yes => flag,
            Wanted::No => !flag,
        }
    }

    // The words for yes and for no.
    pub fn name_of(self, yes: &'static str, no: &'static str) -> &'static str {
        match self {
            Wanted::Any => "any",
            Wanted::Yes => yes,
            Wanted::No => no,
        }
    }
}

impl By {
    pub fn name(self) -> &'static str {
        match self {
            By::DeltaZero => "delta 0",
            By::Can => "can",
            By::Nobody => "nobody",
            By::Overscroll => "overscroll",
            By::NoParent => "no parent",
            By::Corner => "corner",
        }
    }
}

pub fn is_momentum(source: Option<WheelSource>) -> bool {
    source == Some(WheelSource::Momentum)
}

// Where a wheel turn meets the list, whose bounds are 0 to 300, and which way it points. Sides and ways are written beside the numbers, so
// that no comparison of numbers decides which row of the table a turn belongs to.

// Of an offset: before the start, on it, between start and end, on the end, after it.
#[derive(Clone, Copy)]
pub enum Side {
    Before,
    Start,
    Between,
    End,
    After,
}

// Of a delta: towards the start, nowhere, towards the end.
#[derive(Clone, Copy)]
pub enum Way {
    Back,
    Nowhere,
    On,
}

// Whether there is room inside the bounds on the side that the delta points to.
#[derive(Clone, Copy, PartialEq, Eq)]
pub enum CanMove {
    DeltaZero,
    Yes,
    No,
}

// 1e-45 is the least f32 above 0, and 299.99997 and 300.00003 stand next to 300; -0 lies on the start, as it equals 0.
pub const OFFSETS: [(f32, Side); 10] = [
    (-10.0, Side::Before),
    (-1e-45, Side::Before),
    (-0.0, Side::Start),
    (0.0, Side::Start),
    (1e-45, Side::Between),
    (150.0, Side::Between),
    (299.99997, Side::Between),
    (300.0, Side::End),
    (300.00003, Side::After),
    (310.0, Side::After),
];

pub const DELTAS: [(f32, Way); 6] = [
    (-8.0, Way::Back),
    (-1e-45, Way::Back),
    (-0.0, Way::Nowhere),
    (0.0, Way::Nowhere),
    (1e-45, Way::On),
    (8.0, Way::On),
];

#[derive(Clone, Copy)]
pub struct Place {
    pub offset: f32,
    pub delta: f32,
    pub can_move: CanMove,
    pub outside: bool,
}

impl Place {
    pub fn new((offset, side): (f32, Side), (delta, way): (f32, Way)) -> Self {
        Place {
            offset,
            delta,
            can_move: way.can_move(side),
            outside: side.is_outside(),
        }
    }
}

impl Way {
    fn can_move(self, side: Side) -> CanMove {
        match (self, side) {
            (Way::Nowhere, _) => CanMove::DeltaZero,
            (Way::Back, Side::Before | Side::Start) => CanMove::No,
            (Way::On, Side::End | Side::After) => CanMove::No,
            _ => CanMove::Yes,
        }
    }
}

impl Side {
    fn is_outside(self) -> bool {
        matches!(self, Side::Before | Side::After)
    }
}

impl CanMove {
    pub fn name(self) -> &'static str {
        match self {
            CanMove::DeltaZero => "delta 0",
            CanMove::Yes => "yes",
            CanMove::No => "no",
        }
    }
}

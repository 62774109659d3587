// What holds of all the turns that were run for a row.
use crate::ran::Ran;

#[derive(Clone, Copy)]
pub enum Taken {
    Yes,
    No,
    Mixed,
}

#[derive(Clone, Copy)]
pub enum Leaves {
    AsGiven,
    // The offset inside the bounds and the velocity as given.
    Inside,
    MayChange,
}

#[derive(Clone, Copy)]
pub struct Kept {
    all_taken: bool,
    none_taken: bool,
    all_as_given: bool,
    // The offset inside the bounds and the velocity as given.
    all_inside: bool,
}

impl Kept {
    // Of one turn.
    pub fn of(ran: Ran) -> Self {
        Kept {
            all_taken: ran.taken,
            none_taken: !ran.taken,
            all_as_given: ran.offset_as_given && ran.velocity_as_given,
            all_inside: ran.offset_inside && ran.velocity_as_given,
        }
    }

    // Of these turns and of others.
    pub fn and(self, others: Kept) -> Self {
        Kept {
            all_taken: self.all_taken && others.all_taken,
            none_taken: self.none_taken && others.none_taken,
            all_as_given: self.all_as_given && others.all_as_given,
            all_inside: self.all_inside && others.all_inside,
        }
    }

    pub fn taken(self) -> Taken {
        if self.all_taken {
            Taken::Yes
        } else if self.none_taken {
            Taken::No
        } else {
            Taken::Mixed
        }
    }

    pub fn leaves(self) -> Leaves {
        if self.all_as_given {
            Leaves::AsGiven
        } else if self.all_inside {
            Leaves::Inside
        } else {
            Leaves::MayChange
        }
    }
}

impl Taken {
    pub fn name(self) -> &'static str {
        match self {
            Taken::Yes => "yes",
            Taken::No => "no",
            Taken::Mixed => "mixed",
        }
    }
}

impl Leaves {
    pub fn name(self) -> &'static str {
        match self {
            Leaves::AsGiven => "offset and velocity as given",
            Leaves::Inside => "offset inside, velocity as given",
            Leaves::MayChange => "offset or velocity may change",
        }
    }
}

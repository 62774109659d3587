// Whether every number of a value is finite.
ghost use Rattle.std.specs.Prelude.{◌≡◌, Bool};
ghost use Rattle.numbers.specs.Finite as Spec;
ghost use Rattle.numbers.specs.Scalar as Scalar;

use crate::range::Rangef;
use crate::shape::{Pos2, Rect};

pub trait Finite: Copy {
    ghost finite: { Self → Bool };

    fn all_finite(self) -> bool
        ensures { result ≡ finite self };
}

impl Finite for f32 {
    ghost finite = { Scalar.is_finite };

    #[tactic(auto, using(crate::proofs::StdLaws::floats))]
    fn all_finite(self) -> bool {
        self.is_finite()
    }
}

impl Finite for f64 {
    ghost finite = { Scalar.is_finite };

    #[tactic(auto, using(crate::proofs::StdLaws::floats))]
    fn all_finite(self) -> bool {
        self.is_finite()
    }
}

impl<T: Finite> Finite for Option<T> {
    ghost finite = { Spec.option_finite T.finite };

    fn all_finite(self) -> bool {
        match self {
            None => true,
            Some(value) => value.all_finite(),
        }
    }
}

impl<T: Finite> Finite for [T; 2] {
    ghost finite = { Spec.pair_finite T.finite };

    fn all_finite(self) -> bool {
        let [x, y] = self;
        x.all_finite() & y.all_finite()
    }
}

impl Finite for Pos2 {
    ghost finite = { Spec.pos_finite };

    fn all_finite(self) -> bool {
        self.x.all_finite() & self.y.all_finite()
    }
}

impl Finite for Rect {
    ghost finite = { Spec.rect_finite };

    fn all_finite(self) -> bool {
        self.min.all_finite() & self.max.all_finite()
    }
}

impl Finite for Rangef {
    ghost finite = { Spec.range_finite };

    fn all_finite(self) -> bool {
        self.min.all_finite() & self.max.all_finite()
    }
}

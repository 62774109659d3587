// One of the two axes, and what a pair has along it.
ghost use Rattle.std.specs.Prelude.{◌≡◌, slice_index_or};
ghost use Rattle.numbers.specs.Axis.{index_of, other_of};

#[derive(Clone, Copy, Debug, PartialEq, Eq)]
pub enum Axis {
    X,
    Y,
}

impl Axis {
    pub fn other(self) -> Self
        ensures { result ≡ other_of self }
    {
        match self {
            Axis::X => Axis::Y,
            Axis::Y => Axis::X,
        }
    }
}

pub fn along<T: Copy>(pair: [T; 2], d: Axis) -> T
    ensures { (otherwise : _) → result ≡ slice_index_or pair (index_of d) otherwise }
{
    let [x, y] = pair;
    match d {
        Axis::X => x,
        Axis::Y => y,
    }
}

// How many positions a file has.
ghost use Rattle.clause_sizes.specs.Sizes.{Fitting};
ghost use Rattle.clause_indices.specs.Indices.{ExtentIfAny, ExtentOf};

use clause_sizes::{Sizes, fitting};

// How many positions groups 1, 2 and 3 have, and how many there are in all.
#[derive(Clone, Copy)]
pub struct Extent {
    pub first: usize,
    pub second: usize,
    pub third: usize,
    pub all: usize,
}

// None where no file has these sizes.
pub fn extent_of(z: Sizes) -> Extent
    ensures { ExtentIfAny z result }
{
    if !fitting(z) {
        return Extent {
            first: 0,
            second: 0,
            third: 0,
            all: 0,
        };
    }
    positions(z)
}

fn positions(z: Sizes) -> Extent
    requires { Fitting z }
    ensures { ExtentOf z result }
{
    let n = z.candidate.states;
    let r = z.reference.states;
    let own = z.candidate.subsets;
    let other = z.reference.subsets;
    let first = n * z.letters;
    let moves = n * n * r * z.letters;
    let markings = own * other * own;
    let third = n * r * (moves * markings);
    Extent {
        first,
        second: 1 + moves,
        third,
        all: first + (1 + moves + (third + moves * markings)),
    }
}

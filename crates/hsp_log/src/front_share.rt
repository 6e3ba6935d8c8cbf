// The share of a front in a number.

ghost use Rattle.std.specs.Prelude.{◌≡◌, ◌<◌};
ghost use Rattle.hsp_log.specs.FrontShares.{share};

/// How many fronts there are, and the number of one of them.
#[derive(Clone, Copy)]
pub struct Front {
    /// How many fronts there are.
    pub fronts: u32,
    /// The number of this one, from 0.
    pub number: u32,
}

/// The share of a front in a number: all fronts have the quotient, and the first ones have one of the remainder each.
pub fn share_of_front(number: u64, front: Front) -> u64
    requires { 0 < front.fronts }
    ensures { result ≡ share front.fronts front.number number }
{
    let fronts = u64::from(front.fronts);
    if u64::from(front.number) < number % fronts {
        number / fronts + 1
    } else {
        number / fronts
    }
}

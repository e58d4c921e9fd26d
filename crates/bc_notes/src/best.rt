//! The best points so far, while masks are looked at one after the other.
ghost use Rattle.std.specs.Prelude.{◌≡◌, ◌⊎◌, IsSome, true, false, None};

use bc_text::Spot;

// Of so many masks at most the points are compared.
const MOST_COMPARED: usize = 1024;

fn denominator(spot: &Spot) -> i128 {
    match spot {
        Spot::Flat(p) => p.w,
        Spot::Solid(p) => p.w,
    }
}

// Whether there is a point, and the best so far, if there is one, has a larger denominator.
fn is_plainer(spot: &Option<Spot>, best: &Option<Spot>) -> bool
    ensures some { result ≡ true → IsSome spot.now }
    ensures none { result ≡ false → best.now ≡ None → spot.now ≡ None }
{
    match spot {
        None => false,
        Some(spot) => match best {
            None => true,
            Some(best) => denominator(spot) < denominator(best),
        },
    }
}

/// The best point so far.
#[derive(Clone, Copy)]
pub struct Best {
    pub spot: Option<Spot>,
    stays: bool,
    ghost known: { stays ≡ true → IsSome spot },
}

impl Best {
    /// At first, the point of the mask that the cover names, if it has one: of a list of more than 1,024 masks it stays.
    pub fn new(named: Option<Spot>, masks: usize) -> Best
        ensures { result.spot ≡ named }
    {
        Best {
            spot: named,
            stays: masks > MOST_COMPARED && named.is_some(),
        }
    }

    /// Whether other points are looked at.
    pub fn is_open(&self) -> bool
        ensures { result ≡ false → IsSome self.now.spot }
    {
        !self.stays
    }

    /// The point, where there is one and the best so far has a larger denominator or is none.
    pub fn or_plainer(self, spot: &Option<Spot>) -> Best
        ensures one_of { (result.spot ≡ self.spot) ⊎ (result.spot ≡ spot.now) }
        ensures none { result.spot ≡ None → (self.spot ≡ None) × (spot.now ≡ None) }
    {
        if !self.stays && is_plainer(spot, &self.spot) {
            Best {
                spot: *spot,
                stays: false,
            }
        } else {
            self
        }
    }
}

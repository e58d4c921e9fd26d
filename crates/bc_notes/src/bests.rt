//! The best points so far of several terms or literals.
ghost use Rattle.std.specs.Prelude.{◌≡◌, ◌<◌, length};
ghost use Rattle.bc_notes.specs.Bests.{AreSteps};

use crate::best::Best;
use bc_text::Spot;

/// Looks at a point that will do at place `i` alone.
pub fn improve_at(bests: &mut Vec<Best>, i: usize, spot: &Option<Spot>)
    requires { i < length bests.old.items }
    ensures len { length bests.new.items ≡ length bests.old.items }
    ensures each { AreSteps (λ j. j ≡ i) spot.now bests.old.items bests.new.items }
{
    bests[i] = bests[i].or_plainer(spot);
}

/// Looks at a point that will do at each place.
pub fn improve_each(bests: &mut Vec<Best>, spot: &Option<Spot>)
    ensures len { length bests.new.items ≡ length bests.old.items }
    ensures each { AreSteps (λ j. Unit {0}) spot.now bests.old.items bests.new.items }
{
    for i in 0..bests.len() {
        bests[i] = bests[i].or_plainer(spot);
    }
}

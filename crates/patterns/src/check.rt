// The checks of a pattern and of a live camera.
ghost use Rattle.std.specs.Prelude.{◌≡◌};
ghost use Rattle.refusals.specs.Checks.{first_fault, unless};
ghost use Rattle.patterns.specs.Checks.{large_one, slots_checks, pattern_fault};

use crate::fault::PatternFault;
use totals::{MAX_FRAMES, MAX_SIZE};

// The most sizes of a group.
pub const MAX_GROUP: usize = 16;

pub fn check_slots(slots: usize) -> Result<(), PatternFault>
    ensures { result ≡ unless (first_fault (slots_checks slots)) }
{
    if !(1..=MAX_FRAMES).contains(&slots) {
        return Err(PatternFault::Slots { given: slots });
    }
    Ok(())
}

// The place of the first size that is too large.
fn large_one(group: &[u32]) -> Option<usize>
    ensures { result ≡ large_one group.now }
{
    group.iter().position(|size| *size > MAX_SIZE)
}

pub fn check_pattern(group: &[u32], slots: usize) -> Result<(), PatternFault>
    ensures { result ≡ unless (pattern_fault group.now slots) }
{
    let given = group.len();
    if !(1..=MAX_GROUP).contains(&given) {
        return Err(PatternFault::Group { given });
    }
    if let Some(place) = large_one(group) {
        return Err(PatternFault::Size { place });
    }
    check_slots(slots)
}

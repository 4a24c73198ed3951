// A live camera that records the same number of bytes in each slot.
ghost use Rattle.std.specs.Prelude.{◌≡◌, Some, None, MatchResult};
ghost use Rattle.patterns.specs.Checks.{live_fault};
ghost use Rattle.patterns.specs.Live.{LiveFits, live_bounds};

use crate::check::check_slots;
use crate::fault::PatternFault;
use envelopes::Envelope;
use totals::MAX_SIZE;

#[derive(Clone, Copy)]
pub struct Live {
    size: u32,
    slots: usize,
    ghost fits: { LiveFits size slots },
}

impl Live {
    // A camera that records so many bytes in each of so many slots.
    pub fn new(size: u32, slots: usize) -> Result<Live, PatternFault>
        ensures { MatchResult result (λ live. (live.size ≡ size) × (live.slots ≡ slots) × (live_fault size slots ≡ None)) (λ e. live_fault size slots ≡ Some e) }
    {
        if size > MAX_SIZE {
            return Err(PatternFault::Size { place: 0 });
        }
        check_slots(slots)?;
        Ok(Live { size, slots })
    }
}

impl Envelope for Live {
    ghost bounds = { λ live. live_bounds live.size live.slots live.fits };

    fn slots(&self) -> usize {
        self.slots
    }

    fn lower(&self, k: usize) -> u64 {
        u64::from(self.size) * k.min(self.slots) as u64
    }

    fn upper(&self, k: usize) -> u64 {
        self.lower(k)
    }
}

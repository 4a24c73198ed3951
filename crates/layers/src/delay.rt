// A delay: playing begins so many slots later.
ghost use Rattle.layers.specs.Delay.{delayed};

use crate::layer::Layer;
use crate::number::Slots;
use envelopes::{Envelope, MAX_SLOTS};

#[derive(Clone, Copy)]
pub struct Delay(pub Slots);

impl Layer for Delay {
    ghost alters = { λ delay below. delayed below delay.0 };

    fn slots<E: Envelope>(&self, below: &E) -> usize {
        let later = self.0.get() as usize;
        (below.slots() + later).min(MAX_SLOTS)
    }

    fn lower<E: Envelope>(&self, below: &E, k: usize) -> u64 {
        let later = self.0.get() as usize;
        match k.min(self.slots(below)).checked_sub(later) {
            Some(before) => below.lower(before),
            None => 0,
        }
    }

    fn upper<E: Envelope>(&self, below: &E, k: usize) -> u64 {
        below.upper(k)
    }
}

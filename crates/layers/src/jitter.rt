// A jitter of the link: what is due by a slot is due some slots before.
ghost use Rattle.layers.specs.Jitter.{jittered};

use crate::layer::Layer;
use crate::number::Slots;
use envelopes::Envelope;

#[derive(Clone, Copy)]
pub struct Jitter(pub Slots);

impl Layer for Jitter {
    ghost alters = { λ jitter below. jittered below jitter.0 };

    fn slots<E: Envelope>(&self, below: &E) -> usize {
        below.slots()
    }

    fn lower<E: Envelope>(&self, below: &E, k: usize) -> u64 {
        let due = k.saturating_add(self.0.get() as usize);
        below.lower(due.min(below.slots()))
    }

    fn upper<E: Envelope>(&self, below: &E, k: usize) -> u64 {
        below.upper(k)
    }
}

// A prefix: the first bytes of the film are at the proxy already.
ghost use Rattle.layers.specs.Prefix.{prefixed};

use crate::layer::Layer;
use crate::number::Bytes;
use envelopes::Envelope;

#[derive(Clone, Copy)]
pub struct Prefix(pub Bytes);

impl Layer for Prefix {
    ghost alters = { λ prefix below. prefixed below prefix.0 };

    fn slots<E: Envelope>(&self, below: &E) -> usize {
        below.slots()
    }

    fn lower<E: Envelope>(&self, below: &E, k: usize) -> u64 {
        below.lower(k).saturating_sub(self.0.get())
    }

    fn upper<E: Envelope>(&self, below: &E, k: usize) -> u64 {
        below.upper(k).saturating_sub(self.0.get())
    }
}

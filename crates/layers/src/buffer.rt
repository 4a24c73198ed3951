// A buffer at the viewer: what is sent and not yet played has to fit it.
ghost use Rattle.layers.specs.Buffer.{buffered};

use crate::layer::Layer;
use crate::number::Bytes;
use envelopes::Envelope;

#[derive(Clone, Copy)]
pub struct Buffer(pub Bytes);

impl Layer for Buffer {
    ghost alters = { λ buffer below. buffered below buffer.0 };

    fn slots<E: Envelope>(&self, below: &E) -> usize {
        below.slots()
    }

    fn lower<E: Envelope>(&self, below: &E, k: usize) -> u64 {
        below.lower(k)
    }

    fn upper<E: Envelope>(&self, below: &E, k: usize) -> u64 {
        let k = k.min(below.slots());
        if k == 0 {
            return 0;
        }
        let room = below.lower(k - 1).saturating_add(self.0.get());
        below.upper(k).min(room)
    }
}

// What a layer is: it alters the envelope below it.
ghost use Rattle.std.specs.Prelude.{◌≡◌};
ghost use Rattle.either.specs.Either.{either};
ghost use Rattle.envelopes.specs.Bounds.{Bounds, Limit};

use either::Either;
use envelopes::Envelope;

// What a layer makes of the three answers of an envelope below; whatever tells that goes over any envelope.
pub trait Layer: Sized {
    // what an envelope means under the layer, by what it means below
    ghost alters: { Self → Bounds → Bounds };

    // How many slots there are under the layer. It has no body here: what a layer alters, only the layer knows.
    fn slots<E: Envelope>(&self, below: &E) -> usize
        ensures { result ≡ (alters self.now (E.Envelope.bounds below.now)).slots };

    // How many bytes must have been sent by the end of slot k under the layer.
    fn lower<E: Envelope>(&self, below: &E, k: usize) -> u64
        ensures { result ≡ (alters self.now (E.Envelope.bounds below.now)).lower.at k };

    // How many bytes may have been sent by the end of slot k under the layer.
    fn upper<E: Envelope>(&self, below: &E, k: usize) -> u64
        ensures { result ≡ (alters self.now (E.Envelope.bounds below.now)).upper.at k };

    // Puts the layer on; that is never refused.
    fn over<E: Envelope>(self, below: E) -> Layered<Self, E>
        ensures { (result.layer ≡ self) × (result.below ≡ below) }
    {
        Layered { layer: self, below }
    }
}

// An envelope under a layer.
#[derive(Clone, Copy, Drop)]
pub struct Layered<L, E> {
    pub below: E,
    pub layer: L,
}

impl<L: Layer, E: Envelope> Envelope for Layered<L, E> {
    ghost bounds = { λ layered. L.Layer.alters layered.layer (E.Envelope.bounds layered.below) };

    fn slots(&self) -> usize {
        self.layer.slots(&self.below)
    }

    fn lower(&self, k: usize) -> u64 {
        self.layer.lower(&self.below, k)
    }

    fn upper(&self, k: usize) -> u64 {
        self.layer.upper(&self.below, k)
    }
}

// Either of two layers, so that one type serves for both.
impl<A: Layer, B: Layer> Layer for Either<A, B> {
    ghost alters = { either A.Layer.alters B.Layer.alters };

    fn slots<E: Envelope>(&self, below: &E) -> usize {
        match self {
            Either::Left(a) => a.slots(below),
            Either::Right(b) => b.slots(below),
        }
    }

    fn lower<E: Envelope>(&self, below: &E, k: usize) -> u64 {
        match self {
            Either::Left(a) => a.lower(below, k),
            Either::Right(b) => b.lower(below, k),
        }
    }

    fn upper<E: Envelope>(&self, below: &E, k: usize) -> u64 {
        match self {
            Either::Left(a) => a.upper(below, k),
            Either::Right(b) => b.upper(below, k),
        }
    }
}

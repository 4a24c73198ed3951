// A film as an envelope, over totals that are handed in for reading.
ghost use Rattle.stored.specs.Totals.{Fits};
ghost use Rattle.stored.specs.Film.{film_bounds};

use envelopes::Envelope;

mod set_up;

// Its totals are L(0) to L(N).
#[derive(Clone, Copy, Drop)]
pub struct Film<'a> {
    totals: &'a [u64],
    ghost fits: { Fits totals.now },
}

impl<'a> Envelope for Film<'a> {
    ghost bounds = { λ film. film_bounds film.totals.now film.fits };

    fn slots(&self) -> usize {
        self.totals.len() - 1
    }

    fn lower(&self, k: usize) -> u64 {
        self.totals[k.min(self.slots())]
    }

    // as a pattern's; one function for both would be longer than the two lines
    fn upper(&self, k: usize) -> u64 {
        if k == 0 {
            return 0;
        }
        self.totals[self.slots()]
    }
}

// Why a film is not set up.
ghost use Rattle.std.specs.Prelude.{Some};
ghost use Rattle.refusals.specs.Told.{refusal_text};
ghost use Rattle.stored.specs.Faults.{totals_refusal};

use refusals::{Fault, Layer, Refusal};
use std::error::Error;
use std::fmt;
use std::fmt::Display;

#[derive(Clone, Copy, Debug, PartialEq, Eq)]
pub enum TotalsFault {
    // fewer than 2 or more than 65,536 totals
    Count { given: usize },
    // the first is not 0, or one is below its predecessor or too far above it
    Entry { place: usize },
}

impl Fault for TotalsFault {
    ghost tells = { totals_refusal };

    fn refusal(&self) -> Refusal {
        match *self {
            TotalsFault::Count { given } => Refusal::new(Layer::FilmSetUp, 28, given),
            TotalsFault::Entry { place } => Refusal::new(Layer::FilmSetUp, 28, place),
        }
    }
}

// Tried: one impl for every fault, which is refused (Display is std's, and `F: Fault` any type), and a derive, which has
// no contract.
impl fmt::Display for TotalsFault {
    ghost output = { λ e. Some (refusal_text (totals_refusal e)) };

    fn fmt<W: fmt::Write>(&self, f: &mut fmt::Formatter<W>) -> fmt::Result {
        fmt::Display::fmt(&self.refusal(), f)
    }
}

impl Error for TotalsFault {}

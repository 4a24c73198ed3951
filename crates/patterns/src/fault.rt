// Why a pattern is not set up, and no live camera is made.
ghost use Rattle.std.specs.Prelude.{Some};
ghost use Rattle.refusals.specs.Told.{refusal_text};
ghost use Rattle.patterns.specs.Faults.{pattern_refusal};

use refusals::{Fault, Layer, Refusal};
use std::error::Error;
use std::fmt;
use std::fmt::Display;

#[derive(Clone, Copy, Debug, PartialEq, Eq)]
pub enum PatternFault {
    // not 1 to 16 sizes
    Group { given: usize },
    // a size above 16,777,215
    Size { place: usize },
    // not 1 to 65,535 slots
    Slots { given: usize },
}

impl Fault for PatternFault {
    ghost tells = { pattern_refusal };

    fn refusal(&self) -> Refusal {
        match *self {
            PatternFault::Group { given } => Refusal::new(Layer::PatternLive, 23, given),
            PatternFault::Size { place } => Refusal::new(Layer::PatternLive, 24, place),
            PatternFault::Slots { given } => Refusal::new(Layer::PatternLive, 25, given),
        }
    }
}

// Tried: one impl for every fault, which is refused (Display is std's, and `F: Fault` any type), and a derive, which has
// no contract.
impl fmt::Display for PatternFault {
    ghost output = { λ e. Some (refusal_text (pattern_refusal e)) };

    fn fmt<W: fmt::Write>(&self, f: &mut fmt::Formatter<W>) -> fmt::Result {
        fmt::Display::fmt(&self.refusal(), f)
    }
}

impl Error for PatternFault {}

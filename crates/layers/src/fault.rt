// Why the number of a layer is refused.
ghost use Rattle.std.specs.Prelude.{Some};
ghost use Rattle.refusals.specs.Told.{refusal_text};
ghost use Rattle.layers.specs.Numbers.{number_refusal};

use refusals::{Fault, Layer, Refusal};
use std::error::Error;
use std::fmt;
use std::fmt::Display;

// The number that is too large.
#[derive(Clone, Copy, Debug, PartialEq, Eq)]
pub struct NumberFault {
    pub given: u64,
    // the most that it may be, which tells slots, 65,535, from bytes, 1,099,511,627,775
    pub most: u64,
}

impl Fault for NumberFault {
    ghost tells = { number_refusal };

    fn refusal(&self) -> Refusal {
        Refusal {
            layer: Layer::LayerNumber,
            number: 26,
            place: self.given,
        }
    }
}

// Tried: one impl for every fault, which is refused (Display is std's, and `F: Fault` any type), and a derive, which has
// no contract.
impl fmt::Display for NumberFault {
    ghost output = { λ e. Some (refusal_text (number_refusal e)) };

    fn fmt<W: fmt::Write>(&self, f: &mut fmt::Formatter<W>) -> fmt::Result {
        fmt::Display::fmt(&self.refusal(), f)
    }
}

impl Error for NumberFault {}

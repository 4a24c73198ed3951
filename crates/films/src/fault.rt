// Why no film is made.
ghost use Rattle.std.specs.Prelude.{◌≡◌, Some};
ghost use Rattle.refusals.specs.Told.{refusal_text};
ghost use Rattle.films.specs.Faults.{film_refusal};
ghost use Rattle.films.specs.declared.fault.FilmFault.TheVariants.{Record};

use readers::fault::RecordFault;
use refusals::{Fault, Layer, Refusal};
use std::error::Error;
use std::fmt;
use std::fmt::{Debug, Display};

#[derive(Clone, Copy, Debug, PartialEq, Eq)]
pub enum FilmFault {
    // the memory has no entry at all
    NoMemory,
    // a record was refused; the frames read before it
    Record { fault: RecordFault, frames: usize },
    // one more came after the most that a film has
    TooManyFrames { frames: usize },
    // one more came, and the memory has no entry for its total
    NoEntryLeft { frames: usize },
    NoFrame,
}

impl From<(RecordFault, usize)> for FilmFault {
    ghost from_gives = { λ pair r. r ≡ Record pair.0 pair.1 };

    fn from((fault, frames): (RecordFault, usize)) -> FilmFault {
        FilmFault::Record { fault, frames }
    }
}

impl Fault for FilmFault {
    ghost tells = { film_refusal };

    fn refusal(&self) -> Refusal {
        match *self {
            FilmFault::NoMemory => Refusal::new(Layer::Film, 22, 0),
            FilmFault::Record { fault, .. } => fault.refusal(),
            FilmFault::TooManyFrames { frames } => Refusal::new(Layer::FilmEachRecord, 21, frames),
            FilmFault::NoEntryLeft { frames } => Refusal::new(Layer::FilmEachRecord, 22, frames),
            FilmFault::NoFrame => Refusal::new(Layer::FilmAtEnd, 20, 0),
        }
    }
}

// Tried: one impl for every fault, which is refused (Display is std's, and `F: Fault` any type), and a derive, which has
// no contract.
impl fmt::Display for FilmFault {
    ghost output = { λ e. Some (refusal_text (film_refusal e)) };

    fn fmt<W: fmt::Write>(&self, f: &mut fmt::Formatter<W>) -> fmt::Result {
        fmt::Display::fmt(&self.refusal(), f)
    }
}

impl Error for FilmFault {}

// Why a listing has no film.
ghost use Rattle.std.specs.Prelude.{◌≡◌, Some};
ghost use Rattle.refusals.specs.Told.{refusal_text};
ghost use Rattle.listing.specs.Faults.{listing_refusal};
ghost use Rattle.listing.specs.declared.fault.ListingFault.TheVariants.{Opened, Film};

use films::fault::FilmFault;
use readers::fault::OpenFault;
use refusals::{Fault, Layer, Refusal};
use std::error::Error;
use std::fmt;
use std::fmt::{Debug, Display};

// The most bytes of an input.
pub const MAX_INPUT: usize = 65_536;

#[derive(Clone, Copy, Debug, PartialEq, Eq)]
pub enum ListingFault {
    InputTooLong,
    Opened(OpenFault),
    Film(FilmFault),
}

impl From<OpenFault> for ListingFault {
    ghost from_gives = { λ e r. r ≡ Opened e };

    fn from(open: OpenFault) -> ListingFault {
        ListingFault::Opened(open)
    }
}

impl From<FilmFault> for ListingFault {
    ghost from_gives = { λ e r. r ≡ Film e };

    fn from(film: FilmFault) -> ListingFault {
        ListingFault::Film(film)
    }
}

impl Fault for ListingFault {
    ghost tells = { listing_refusal };

    fn refusal(&self) -> Refusal {
        match *self {
            ListingFault::InputTooLong => Refusal::new(Layer::ProgramFirst, 50, MAX_INPUT),
            ListingFault::Opened(fault) => fault.refusal(),
            ListingFault::Film(fault) => fault.refusal(),
        }
    }
}

// Tried: one impl for every fault, which is refused (Display is std's, and `F: Fault` any type), and a derive, which has
// no contract.
impl fmt::Display for ListingFault {
    ghost output = { λ e. Some (refusal_text (listing_refusal e)) };

    fn fmt<W: fmt::Write>(&self, f: &mut fmt::Formatter<W>) -> fmt::Result {
        fmt::Display::fmt(&self.refusal(), f)
    }
}

impl Error for ListingFault {}

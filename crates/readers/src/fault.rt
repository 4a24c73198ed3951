// Why a reader is not opened, and why a record is not handed out.
ghost use Rattle.std.specs.Prelude.{Some};
ghost use Rattle.refusals.specs.Told.{refusal_text};
ghost use Rattle.readers.specs.Faults.{open_refusal, record_refusal};

use refusals::{Fault, Layer, Refusal};
use std::error::Error;
use std::fmt;
use std::fmt::Display;

#[derive(Clone, Copy, Debug, PartialEq, Eq)]
pub enum OpenFault {
    TooShort { length: usize },
    NotDkif,
    NotStsz,
    IvfVersion,
    IvfHeaderLength,
    BoxVersion,
    CommonSize,
    BoxSize,
}

#[derive(Clone, Copy, Debug, PartialEq, Eq)]
pub enum RecordFault {
    HeaderCut { place: usize },
    TooLarge { place: usize },
    DataCut { place: usize },
}

impl Fault for OpenFault {
    ghost tells = { open_refusal };

    fn refusal(&self) -> Refusal {
        match *self {
            OpenFault::TooShort { length } => Refusal::new(Layer::ReaderOpened, 10, length),
            OpenFault::NotDkif => Refusal::new(Layer::ReaderOpened, 11, 0),
            OpenFault::NotStsz => Refusal::new(Layer::ReaderOpened, 11, 4),
            OpenFault::IvfVersion => Refusal::new(Layer::ReaderOpened, 12, 4),
            OpenFault::IvfHeaderLength => Refusal::new(Layer::ReaderOpened, 12, 6),
            OpenFault::BoxVersion => Refusal::new(Layer::ReaderOpened, 12, 8),
            OpenFault::CommonSize => Refusal::new(Layer::ReaderOpened, 15, 12),
            OpenFault::BoxSize => Refusal::new(Layer::ReaderOpened, 14, 0),
        }
    }
}

impl Fault for RecordFault {
    ghost tells = { record_refusal };

    fn refusal(&self) -> Refusal {
        match *self {
            RecordFault::HeaderCut { place } => Refusal::new(Layer::EachRecord, 13, place),
            RecordFault::TooLarge { place } => Refusal::new(Layer::EachRecord, 15, place),
            RecordFault::DataCut { place } => Refusal::new(Layer::EachRecord, 13, place),
        }
    }
}

// Tried: one impl for every fault, which is refused (Display is std's, and `F: Fault` any type), and a derive, which has
// no contract.
impl fmt::Display for OpenFault {
    ghost output = { λ e. Some (refusal_text (open_refusal e)) };

    fn fmt<W: fmt::Write>(&self, f: &mut fmt::Formatter<W>) -> fmt::Result {
        let opened = self.refusal();
        fmt::Display::fmt(&opened, f)
    }
}

// Tried: one impl for every fault, which is refused (Display is std's, and `F: Fault` any type), and a derive, which has
// no contract.
impl fmt::Display for RecordFault {
    ghost output = { λ e. Some (refusal_text (record_refusal e)) };

    fn fmt<W: fmt::Write>(&self, f: &mut fmt::Formatter<W>) -> fmt::Result {
        let record = self.refusal();
        fmt::Display::fmt(&record, f)
    }
}

impl Error for OpenFault {}

impl Error for RecordFault {}

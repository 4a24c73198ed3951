// What every refusal tells: the layer whose check refused, the number of the check, and a place.

#![tactic(auto)]

ghost use Rattle.std.specs.Prelude.{◌≡◌, Some};
ghost use Rattle.refusals.specs.declared.Refusal.{Refusal};
ghost use Rattle.refusals.specs.Told.{refused, layer_text, refusal_text};

use std::fmt;

// The layers whose checks refuse.
#[derive(Clone, Copy, Debug, PartialEq, Eq)]
pub enum Layer {
    ReaderOpened,
    EachRecord,
    Film,
    FilmEachRecord,
    FilmAtEnd,
    FilmSetUp,
    PatternLive,
    LayerNumber,
    ProgramFirst,
}

#[derive(Clone, Copy, Debug, PartialEq, Eq)]
pub struct Refusal {
    pub layer: Layer,
    // a number, and no enum of checks: the rules number the refusals, and the fault's own enum tells the kind
    pub number: u32,
    pub place: u64,
}

impl Refusal {
    pub fn new(layer: Layer, number: u32, place: usize) -> Refusal
        ensures { result ≡ refused layer number place }
    {
        Refusal {
            layer,
            number,
            place: place as u64,
        }
    }
}

// A fault of one layer, with the data that layer has of it.
pub trait Fault {
    ghost tells: { Self → Refusal };

    fn refusal(&self) -> Refusal
        ensures { result ≡ tells self.now };

    fn layer(&self) -> Layer
        ensures { result ≡ (tells self.now).layer }
    {
        self.refusal().layer
    }

    fn number(&self) -> u32
        ensures { result ≡ (tells self.now).number }
    {
        self.refusal().number
    }

    fn place(&self) -> u64
        ensures { result ≡ (tells self.now).place }
    {
        self.refusal().place
    }
}

impl Layer {
    pub fn name(self) -> &'static str
        ensures { result.now ≡ layer_text self }
    {
        match self {
            Layer::ReaderOpened => "reader opened",
            Layer::EachRecord => "each record",
            Layer::Film => "film",
            Layer::FilmEachRecord => "film, each record",
            Layer::FilmAtEnd => "film, at end",
            Layer::FilmSetUp => "film set up",
            Layer::PatternLive => "pattern, live",
            Layer::LayerNumber => "layer number",
            Layer::ProgramFirst => "program, first",
        }
    }
}

impl fmt::Display for Layer {
    ghost output = { λ l. Some (layer_text l) };

    fn fmt<W: fmt::Write>(&self, f: &mut fmt::Formatter<W>) -> fmt::Result {
        f.write_str(self.name())
    }
}

impl fmt::Display for Refusal {
    ghost output = { λ r. Some (refusal_text r) };

    fn fmt<W: fmt::Write>(&self, f: &mut fmt::Formatter<W>) -> fmt::Result {
        let layer = self.layer;
        let number = self.number;
        let place = self.place;
        write!(f, "{layer}: refused by {number} at {place}")
    }
}

// What a reader is: it hands out records of its own kind, and means a list of sizes with an ending.
ghost use Rattle.std.specs.Prelude.{◌≡◌, []};
ghost use Rattle.readers.specs.Reading.{Reading, Takes};

use crate::fault::RecordFault;
use totals::Weight;

// What a reader hands out for a record: it weighs its size, in bytes.
pub trait Item: Weight {
    fn size(&self) -> u32
        ensures { result ≡ Self.weighs self.now };
}

pub trait Reader {
    type Record: Item + Drop;

    ghost reading: { Self → Reading };

    // The next record, or none at a plain end; at the ending the same answer each time.
    fn next(&mut self) -> Result<Option<Self::Record>, RecordFault>
        ensures takes { Takes Self.Record.Weight.weighs (reading self.old) result (reading self.new) }
        ensures stays { (reading self.old).sizes ≡ [] → self.new ≡ self.old };
}

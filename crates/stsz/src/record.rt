// A sample as its box tells of it.
ghost use Rattle.std.specs.Prelude.{◌≡◌};

use readers::reader::Item;
use totals::Weight;

// A sample's size and its number, from 0.
#[derive(Clone, Copy, Debug, PartialEq, Eq)]
pub struct IndexRecord {
    pub size: u32,
    pub number: u32,
}

impl Weight for IndexRecord {
    ghost weighs = { λ r. r.size };

    fn weight(&self) -> u64 {
        u64::from(self.size)
    }
}

impl Item for IndexRecord {
    fn size(&self) -> u32 {
        self.size
    }
}

// A reader of a sample-size box, sample by sample.
ghost use Rattle.std.specs.Prelude.{◌≡◌, [], IfOk};
ghost use Rattle.readers.specs.Reading.{Takes};
ghost use Rattle.stsz.specs.Stsz.{StszOpened, IndexAt, stsz_after, stsz_meaning};
ghost use Rattle.stsz.specs.Indexed.{ReadsBox};

use crate::record::IndexRecord;
use crate::table::SizeTable;
use readers::fault::{OpenFault, RecordFault};
use readers::reader::Reader;

#[derive(Drop)]
pub struct StszReader<'a> {
    table: SizeTable<'a>,
    number: u32,
}

impl<'a> StszReader<'a> {
    // A reader at the first sample, where the box passes its checks.
    #[tactic(auto, using(crate::proofs::Indexed::box_sizes, crate::proofs::Indexed::box_ends))]
    pub fn open(input: &'a [u8]) -> Result<StszReader<'a>, OpenFault>
        ensures opened { StszOpened input.now result }
        ensures reads { IfOk result (λ reader. ReadsBox input.now (stsz_meaning reader)) }
    {
        let table = SizeTable::open(input)?;
        Ok(StszReader { table, number: 0 })
    }
}

impl<'a> Reader for StszReader<'a> {
    type Record = IndexRecord;

    ghost reading = { stsz_meaning };

    // The sample at the reader's number, or none after the last; the reader moves past a sample.
    #[tactic(auto, using(crate::proofs::Samples::samples_end, crate::proofs::Samples::samples_more, crate::proofs::Samples::samples_fault))]
    fn next(&mut self) -> Result<Option<IndexRecord>, RecordFault>
        ensures takes { Takes (λ sample. sample.size) (stsz_meaning self.old) result (stsz_meaning self.new) }
        ensures stays { (stsz_meaning self.old).sizes ≡ [] → self.new ≡ self.old }
        ensures after { self.new ≡ stsz_after result self.old }
        ensures holds { IfOk result (IndexAt self.old) }
    {
        if self.number >= self.table.count {
            return Ok(None);
        }
        let number = self.number;
        let size = self.table.size(number)?;
        self.number = number + 1;
        Ok(Some(IndexRecord { size, number }))
    }
}

// Tests of what the contracts of the film crates leave to examples.

#![tactic(auto)]

#[cfg(test)]
mod tests {
    use films::fault::FilmFault;
    use films::make::make_film;
    use ivf::IvfReader;
    use listing::fault::ListingFault;
    use listing::list::film_row;
    use listing::row::Row;
    use readers::fault::{OpenFault, RecordFault};
    use readers::reader::Reader;
    use refusals::{Fault, Layer};
    use runs::Run;
    use std::test::Fail;
    use stsz::IndexRecord;
    use totals::running_totals;

    #[test]
    fn totals_of_sizes(rt: HostRuntime) {
        let mut totals = [9u64; 6];
        running_totals(&[3u32, 3, 12, 3, 3], &mut totals);
        assert_eq!(rt; totals, [0, 3, 6, 18, 21, 24]);
    }

    #[test]
    fn totals_of_index_records(rt: HostRuntime) {
        let mut totals = [9u64; 3];
        let records = [
            IndexRecord { size: 7, number: 0 },
            IndexRecord {
                size: 300,
                number: 1,
            },
        ];
        running_totals(&records, &mut totals);
        assert_eq!(rt; totals, [0, 7, 307]);
    }

    #[test]
    fn totals_of_runs_by_their_bytes(rt: HostRuntime) -> Result<(), Fail> {
        let mut totals = [9u64; 3];
        let Some(first) = Run::new(3, 18) else {
            return Err(Fail::new("out of range"));
        };
        let Some(second) = Run::new(2, 1_099_511_627_775) else {
            return Err(Fail::new("out of range"));
        };
        running_totals(&[first, second], &mut totals);
        assert_eq!(rt; totals, [0, 18, 1_099_511_627_793]);
        Ok(())
    }

    #[test]
    fn totals_of_nothing(rt: HostRuntime) {
        let sizes: [u32; 0] = [];
        let mut totals = [9u64; 1];
        running_totals(&sizes, &mut totals);
        assert_eq!(rt; totals, [0]);
    }

    #[test]
    fn run_ranges(rt: HostRuntime) {
        assert!(rt; Run::new(0, 0).is_none());
        assert!(rt; Run::new(1, 0).is_some());
        assert!(rt; Run::new(65_535, 1_099_511_627_775).is_some());
        assert!(rt; Run::new(65_536, 0).is_none());
        assert!(rt; Run::new(1, 1_099_511_627_776).is_none());
    }

    #[test]
    fn a_film_fault_holds_the_record_fault(rt: HostRuntime) {
        let record = RecordFault::DataCut { place: 101 };
        let fault = FilmFault::from((record, 4));
        assert_eq!(rt;
            fault,
            FilmFault::Record {
                fault: record,
                frames: 4,
            }
        );
        assert_eq!(rt; fault.layer(), Layer::EachRecord);
        assert_eq!(rt; fault.number(), 13);
        assert_eq!(rt; fault.place(), 101);
    }

    // An IVF header, and frames of 1 and 2 bytes with stamps 7 and 258.
    const TWO_FRAMES: [u8; 59] = [
        b'D', b'K', b'I', b'F', 0, 0, 32, 0, 0, 0, 0, 0, 0, 0, 0, 0, 0, 0, 0, 0, 0, 0, 0, 0, 0, 0,
        0, 0, 0, 0, 0, 0, 1, 0, 0, 0, 7, 0, 0, 0, 0, 0, 0, 0, 50, 2, 0, 0, 0, 2, 1, 0, 0, 0, 0, 0,
        0, 60, 70,
    ];

    #[test]
    fn a_reader_goes_on_after_a_refusal(rt: HostRuntime) -> Result<(), Fail> {
        let mut reader = IvfReader::open(&TWO_FRAMES)?;
        let mut totals = [9u64; 1];
        let film = make_film(&mut reader, &mut totals);
        assert_eq!(rt; film, Err(FilmFault::NoEntryLeft { frames: 0 }));
        assert_eq!(rt; totals, [0]);
        let Some(frame) = reader.next()? else {
            return Err(Fail::new("no second frame"));
        };
        assert_eq!(rt; frame.data, [60, 70].as_slice());
        assert_eq!(rt; (frame.place, frame.size, frame.stamp), (57, 2, 258));
        assert!(rt; reader.next()?.is_none());
        Ok(())
    }

    #[test]
    fn no_memory_leaves_the_reader(rt: HostRuntime) -> Result<(), Fail> {
        let mut reader = IvfReader::open(&TWO_FRAMES)?;
        let mut none: [u64; 0] = [];
        assert_eq!(rt; make_film(&mut reader, &mut none), Err(FilmFault::NoMemory));
        let mut totals = [9u64; 4];
        assert_eq!(rt; make_film(&mut reader, &mut totals)?, 2);
        assert_eq!(rt; totals, [0, 1, 3, 0]);
        Ok(())
    }

    #[test]
    fn a_fault_as_text(rt: HostRuntime) -> Result<(), Fail> {
        let text = ListingFault::InputTooLong.to_string(rt.alloc())?;
        assert_eq!(rt; text.as_str(), "program, first: refused by 50 at 65536");
        Ok(())
    }

    #[test]
    fn longest_film(rt: HostRuntime) {
        let mut input = [0u8; 65_536];
        input[0] = b'D';
        input[1] = b'K';
        input[2] = b'I';
        input[3] = b'F';
        input[6] = 32;
        // one frame of 65,492 bytes
        input[32] = 0xd4;
        input[33] = 0xff;
        let row = Row::Film {
            slots: 1,
            bytes: 65_492,
        };
        assert_eq!(rt; film_row(&input), Ok(row));
    }

    #[test]
    fn longest_input(rt: HostRuntime) {
        assert_eq!(rt;
            film_row(&[0u8; 65_536]),
            Err(ListingFault::Opened(OpenFault::NotDkif))
        );
        assert_eq!(rt; film_row(&[0u8; 65_537]), Err(ListingFault::InputTooLong));
    }
}

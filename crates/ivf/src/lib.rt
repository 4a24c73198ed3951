// IVF files, as libvpx writes them: a header of 32 bytes, then frames.

#![tactic(auto)]

ghost use Rattle.std.specs.Prelude.{◌≡◌, ◌<◌, [], length, IfOk, Some, None, MatchResult};
ghost use Rattle.readers.specs.Reading.{Takes};
ghost use Rattle.ivf.specs.Ivf.{IvfOpened, frame_fault, FrameAt, ItemAt, ivf_after, ivf_meaning};
ghost use Rattle.ivf.specs.Recorded.{ReadsCut};

use readers::fault::{OpenFault, RecordFault};
use readers::field::bytes_at;
use readers::reader::{Item, Reader};
use totals::{MAX_SIZE, Weight};

// The bytes of a frame before its data: the size and the stamp.
const FRAME_HEADER: usize = 12;

// A frame's data with its place in the file, its size and its stamp.
#[derive(Clone, Copy)]
pub struct Frame<'a> {
    pub data: &'a [u8],
    pub place: usize,
    pub size: u32,
    pub stamp: u64,
}

#[derive(Drop)]
pub struct IvfReader<'a> {
    input: &'a [u8],
    place: usize,
}

impl Weight for Frame<'_> {
    ghost weighs = { λ frame. frame.size };

    fn weight(&self) -> u64 {
        u64::from(self.size)
    }
}

impl Item for Frame<'_> {
    fn size(&self) -> u32 {
        self.size
    }
}

impl<'a> IvfReader<'a> {
    // Apart from `open`: tried as one function, in which the search doesn't find the law on cut files.
    fn begin(input: &'a [u8]) -> Result<IvfReader<'a>, OpenFault>
        ensures { IvfOpened input.now result }
    {
        if input.len() < 32 {
            return Err(OpenFault::TooShort {
                length: input.len(),
            });
        }
        if !input.starts_with(b"DKIF") {
            return Err(OpenFault::NotDkif);
        }
        if u16::from_le_bytes(bytes_at(input, 4)) != 0 {
            return Err(OpenFault::IvfVersion);
        }
        if u16::from_le_bytes(bytes_at(input, 6)) != 32 {
            return Err(OpenFault::IvfHeaderLength);
        }
        Ok(IvfReader { input, place: 32 })
    }

    // A reader at the first frame, where the header passes its checks.
    #[tactic(auto, using(crate::proofs::Opened::ivf_opens))]
    pub fn open(input: &'a [u8]) -> Result<IvfReader<'a>, OpenFault>
        ensures opened { IvfOpened input.now result }
        ensures reads { IfOk result (λ reader. ReadsCut input.now (ivf_meaning reader)) }
    {
        IvfReader::begin(input)
    }

    // The frame at the reader's place, which is before the input's end, or the first check that it fails.
    fn frame(&self) -> Result<Frame<'a>, RecordFault>
        requires { self.now.place < length self.now.input.now }
        ensures { MatchResult result (FrameAt self.now.input.now self.now.place) (λ e. frame_fault self.now.input.now self.now.place ≡ Some e) }
    {
        let place = self.place;
        let start = place + FRAME_HEADER;
        if self.input.len() < start {
            return Err(RecordFault::HeaderCut { place });
        }
        let size = u32::from_le_bytes(bytes_at(self.input, place));
        if size > MAX_SIZE {
            return Err(RecordFault::TooLarge { place });
        }
        let end = start + size as usize;
        if self.input.len() < end {
            return Err(RecordFault::DataCut { place });
        }
        let data = &self.input[start..end];
        let stamp = u64::from_le_bytes(bytes_at(self.input, place + 4));
        Ok(Frame {
            data,
            place: start,
            size,
            stamp,
        })
    }
}

impl<'a> Reader for IvfReader<'a> {
    type Record = Frame<'a>;

    ghost reading = { ivf_meaning };

    // The frame at the reader's place, or none from the input's end on; the reader moves past a frame.
    #[tactic(auto, using(crate::proofs::Frames::frames_end, crate::proofs::Frames::frames_more, crate::proofs::Frames::frames_fault))]
    fn next(&mut self) -> Result<Option<Frame<'a>>, RecordFault>
        ensures takes { Takes (λ frame. frame.size) (ivf_meaning self.old) result (ivf_meaning self.new) }
        ensures stays { (ivf_meaning self.old).sizes ≡ [] → self.new ≡ self.old }
        ensures after { self.new ≡ ivf_after result self.old }
        ensures holds { IfOk result (ItemAt self.old.input.now self.old.place) }
    {
        if self.place >= self.input.len() {
            return Ok(None);
        }
        let frame = self.frame()?;
        self.place = frame.place + frame.size as usize;
        Ok(Some(frame))
    }
}

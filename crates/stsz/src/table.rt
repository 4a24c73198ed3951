// The sizes in a sample-size box: the checks of the box, and of each size.
ghost use Rattle.std.specs.Prelude.{◌≡◌, ℕ, ◌+◌, ◌<◌, ◌≤◌, length, Some, None, MatchResult};
ghost use Rattle.readers.specs.Field.{big};
ghost use Rattle.stsz.specs.Format.{size_place, stsz_open_fault};

use crate::sizes::Sizes;
use readers::fault::{OpenFault, RecordFault};
use readers::field::bytes_at;
use totals::MAX_SIZE;

// A box that passes its checks, and where the sizes of its samples stand.
#[derive(Drop)]
pub struct SizeTable<'a> {
    input: &'a [u8],
    sizes: Sizes,
    pub count: u32,
    // each sample's size stands inside the input
    ghost inside: { (i : ℕ) → i < count → size_place sizes i + 4 ≤ length input.now },
}

// The number in four bytes of a file, high byte first.
fn u32_at(input: &[u8], place: usize) -> u32
    requires { place + 4 ≤ length input.now }
    ensures { result ≡ big 4 place input.now }
{
    u32::from_be_bytes(bytes_at(input, place))
}

impl<'a> SizeTable<'a> {
    ghost use Rattle.stsz.specs.Stsz.{TableOf, size_at, fault_at};

    // Checks a whole box.
    pub fn open(input: &'a [u8]) -> Result<SizeTable<'a>, OpenFault>
        ensures { MatchResult result (TableOf input.now) (λ e. stsz_open_fault input.now ≡ Some e) }
    {
        if input.len() < 20 {
            return Err(OpenFault::TooShort {
                length: input.len(),
            });
        }
        if !input[4..].starts_with(b"stsz") {
            return Err(OpenFault::NotStsz);
        }
        if u32_at(input, 8) != 0 {
            return Err(OpenFault::BoxVersion);
        }
        let common_size = u32_at(input, 12);
        if common_size > MAX_SIZE {
            return Err(OpenFault::CommonSize);
        }
        let sizes = if common_size == 0 {
            Sizes::Each
        } else {
            Sizes::Common
        };
        let count = u32_at(input, 16);
        let length = sizes.whole_length(count);
        let size = u32_at(input, 0) as usize;
        if size != input.len() || size != length {
            return Err(OpenFault::BoxSize);
        }
        Ok(SizeTable {
            input,
            sizes,
            count,
        })
    }

    // The size of a sample, where it is not too large.
    pub fn size(&self, number: u32) -> Result<u32, RecordFault>
        requires { number < self.now.count }
        ensures { MatchResult result
            (λ size. (fault_at self.now number ≡ None) × (size ≡ size_at self.now number))
            (λ e. fault_at self.now number ≡ Some e) }
    {
        let place = self.sizes.place(number);
        let size = u32_at(self.input, place);
        if size > MAX_SIZE {
            return Err(RecordFault::TooLarge { place });
        }
        Ok(size)
    }
}

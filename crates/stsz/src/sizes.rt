// Where the sizes of a box's samples stand.
ghost use Rattle.std.specs.Prelude.{◌≡◌};
ghost use Rattle.stsz.specs.Format.{size_place, whole_length};

#[derive(Clone, Copy)]
pub enum Sizes {
    // one size for all samples
    Common,
    // a table with each sample's size
    Each,
}

impl Sizes {
    // Where the size of a sample stands.
    pub fn place(self, number: u32) -> usize
        ensures { result ≡ size_place self number }
    {
        match self {
            Sizes::Common => 12,
            Sizes::Each => 20 + 4 * number as usize,
        }
    }

    // The bytes of a whole box of this many samples.
    pub fn whole_length(self, count: u32) -> usize
        ensures { result ≡ whole_length self count }
    {
        match self {
            Sizes::Common => 20,
            Sizes::Each => 20 + 4 * count as usize,
        }
    }
}

// What has a weight, and the running totals of it. The totals are inner: offered to no user.

#![tactic(auto)]

ghost use Rattle.std.specs.Prelude.{◌≡◌, ℕ, ◌+◌, ◌≤◌, map, length};
ghost use Rattle.totals.specs.Totals.{totals_of};

// The largest size of a frame or sample, in bytes.
pub const MAX_SIZE: u32 = 16_777_215;

// The most frames of a film.
pub const MAX_FRAMES: usize = 65_535;

// What is summed up: a frame's size, a sample's, the bytes of a run.
pub trait Weight {
    ghost weighs: { Self → ℕ };

    fn weight(&self) -> u64
        ensures is { result ≡ weighs self.now }
        ensures bound { result ≤ 1099511627775 };
}

// Plain sizes weigh what they are.
impl Weight for u32 {
    ghost weighs = { λ size. size };

    fn weight(&self) -> u64 {
        u64::from(*self)
    }
}

// Writes what the first k records weigh together, for k from 0 to their number.
pub fn running_totals<W: Weight>(records: &[W], totals: &mut [u64])
    requires few { length records.now ≤ 1048575 }
    requires room { length totals.old ≡ length records.now + 1 }
    ensures { totals.new ≡ totals_of (map W.weighs records.now) }
{
    totals[0] = 0;
    // tried: zip with iter_mut, after which a proof knows nothing of what was written
    for (i, record) in records.iter().enumerate() {
        totals[i + 1] = totals[i] + record.weight();
    }
}

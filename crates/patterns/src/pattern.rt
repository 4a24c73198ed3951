// A pattern as an envelope: a group of sizes, handed in for reading, that repeats over the slots.
ghost use Rattle.std.specs.Prelude.{◌≡◌, ℕ, ◌≤◌, length, slice_index};
ghost use Rattle.totals.specs.Totals.{total};
ghost use Rattle.patterns.specs.Pattern.{GroupFits, pattern_due, pattern_bounds};

use crate::check::MAX_GROUP;
use envelopes::Envelope;

mod set_up;

#[derive(Clone, Copy, Drop)]
pub struct Pattern<'a> {
    group: &'a [u32],
    // what the first k sizes of the group come to; a fixed table, since nothing is allocated
    sums: [u64; MAX_GROUP + 1],
    slots: usize,
    ghost fits: { GroupFits group.now slots },
    ghost summed: { (k : ℕ) → k ≤ length group.now → slice_index sums k ≡ total group.now k },
}

impl<'a> Pattern<'a> {
    // What is due by slot k: whole groups, and the first sizes of one more.
    #[tactic(auto, using(crate::proofs::Repeated::due_by_sums))]
    fn due(&self, k: usize) -> u64
        requires { k ≤ self.now.slots }
        ensures { result ≡ pattern_due self.now.group.now self.now.slots k }
    {
        let n = self.group.len();
        (k / n) as u64 * self.sums[n] + self.sums[k % n]
    }
}

impl<'a> Envelope for Pattern<'a> {
    ghost bounds = { λ pattern. pattern_bounds pattern.group.now pattern.slots pattern.fits };

    fn slots(&self) -> usize {
        self.slots
    }

    fn lower(&self, k: usize) -> u64 {
        self.due(k.min(self.slots))
    }

    // as a film's; one function for both would be longer than the two lines
    fn upper(&self, k: usize) -> u64 {
        if k == 0 {
            return 0;
        }
        self.due(self.slots)
    }
}

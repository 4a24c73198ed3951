// A run of a plan: some slots, and the bytes that are sent in them together.

#![tactic(auto)]

ghost use Rattle.std.specs.Prelude.{◌≡◌, ◌≤◌, MatchOption};
ghost use Rattle.runs.specs.Range.{InRange};

use totals::Weight;

#[derive(Clone, Copy, Debug, PartialEq, Eq)]
pub struct Run {
    slots: u32,
    bytes: u64,
    ghost some: { 1 ≤ slots },
    ghost few: { slots ≤ 65535 },
    ghost bound: { bytes ≤ 1099511627775 },
}

impl Run {
    // A run, or none where a number is out of range.
    pub fn new(slots: u32, bytes: u64) -> Option<Run>
        ensures { MatchOption result (InRange slots bytes → ⊥) (λ run. (run.slots ≡ slots) × (run.bytes ≡ bytes)) }
    {
        if slots < 1 || slots > 65_535 || bytes > 1_099_511_627_775 {
            return None;
        }
        Some(Run { slots, bytes })
    }

    pub fn slots(self) -> u32
        ensures { result ≡ self.slots }
    {
        self.slots
    }

    pub fn bytes(self) -> u64
        ensures { result ≡ self.bytes }
    {
        self.bytes
    }
}

impl Weight for Run {
    ghost weighs = { λ run. run.bytes };

    fn weight(&self) -> u64 {
        Run::bytes(*self)
    }
}

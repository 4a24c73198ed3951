// A new pattern, and setting one up.
ghost use Rattle.std.specs.Prelude.{◌≡◌, ℕ, ◌≤◌, [], ◌∷◌, length, MatchResult, slice_index};
ghost use Rattle.refusals.specs.Checks.{unless};
ghost use Rattle.totals.specs.Totals.{total};
ghost use Rattle.patterns.specs.Checks.{pattern_fault};

use crate::check::{MAX_GROUP, check_pattern};
use crate::fault::PatternFault;
use crate::pattern::Pattern;
use totals::running_totals;

// What the first k sizes of a group come to, for k from 0 to their number.
#[tactic(auto, using(crate::proofs::Checked::summed_up))]
fn sums_of(group: &[u32]) -> [u64; MAX_GROUP + 1]
    requires { length group.now ≤ MAX_GROUP }
    ensures { (k : ℕ) → k ≤ length group.now → slice_index result k ≡ total group.now k }
{
    let mut sums = [0; MAX_GROUP + 1];
    running_totals(group, &mut sums[..=group.len()]);
    sums
}

impl<'a> Pattern<'a> {
    // A pattern of one slot with 0 bytes.
    pub fn new() -> Pattern<'a>
        ensures { (result.group.now ≡ 0 ∷ []) × (result.slots ≡ 1) }
    {
        Pattern {
            group: &[0],
            sums: [0; MAX_GROUP + 1],
            slots: 1,
        }
    }

    // Repeats this group over so many slots from now on; where a check refuses it, the pattern stays as it is.
    #[tactic(auto, using(crate::proofs::Checked::unrefused))]
    pub fn set_up(&mut self, group: &'a [u32], slots: usize) -> Result<(), PatternFault>
        ensures result { result ≡ unless (pattern_fault group.now slots) }
        ensures holds { MatchResult result (λ _. (self.new.group.now ≡ group.now) × (self.new.slots ≡ slots)) (λ _. self.new ≡ self.old) }
    {
        check_pattern(group, slots)?;
        let sums = sums_of(group);
        *self = Pattern { group, sums, slots };
        Ok(())
    }
}

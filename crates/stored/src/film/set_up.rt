// A new film, and setting one up.
ghost use Rattle.std.specs.Prelude.{◌≡◌, ◌<◌, true, false, [], ◌∷◌, length, MatchResult};
ghost use Rattle.refusals.specs.Checks.{unless};
ghost use Rattle.stored.specs.Totals.{entry_fits, misfit, totals_fault};

use crate::fault::TotalsFault;
use crate::film::Film;
use totals::{MAX_FRAMES, MAX_SIZE};

// Whether the total at k is no less than the one before it, and at most the largest size above; the first is 0.
fn entry_fits(totals: &[u64], k: usize) -> bool
    requires { k < length totals.now }
    ensures { result ≡ entry_fits totals.now k }
{
    if k == 0 {
        return totals[0] == 0;
    }
    let before = totals[k - 1];
    before <= totals[k] && totals[k] - before <= u64::from(MAX_SIZE)
}

// The place of the first total that does not fit.
fn misfit(totals: &[u64]) -> Option<usize>
    ensures { result ≡ misfit totals.now }
{
    (0..totals.len()).find(|k| !entry_fits(totals, *k))
}

// The first check that refuses these totals.
fn check(totals: &[u64]) -> Result<(), TotalsFault>
    ensures { result ≡ unless (totals_fault totals.now) }
{
    let given = totals.len();
    if !(2..=MAX_FRAMES + 1).contains(&given) {
        return Err(TotalsFault::Count { given });
    }
    if let Some(place) = misfit(totals) {
        return Err(TotalsFault::Entry { place });
    }
    Ok(())
}

impl<'a> Film<'a> {
    // A film of one slot with 0 bytes.
    pub fn new() -> Film<'a>
        ensures { result.totals.now ≡ 0 ∷ 0 ∷ [] }
    {
        Film { totals: &[0, 0] }
    }

    // Holds these totals from now on; where a check refuses them, it stays as it is.
    #[tactic(auto, using(crate::proofs::Fitting::unrefused))]
    pub fn set_up(&mut self, totals: &'a [u64]) -> Result<(), TotalsFault>
        ensures result { result ≡ unless (totals_fault totals.now) }
        ensures holds { MatchResult result (λ _. self.new.totals.now ≡ totals.now) (λ _. self.new ≡ self.old) }
    {
        check(totals)?;
        *self = Film { totals };
        Ok(())
    }
}

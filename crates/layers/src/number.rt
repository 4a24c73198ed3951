// The number of a layer, with the most that it may be in its type.
ghost use Rattle.std.specs.Prelude.{◌≡◌, ◌≤◌};
ghost use Rattle.layers.specs.Numbers.{KeptUpTo};

use crate::fault::NumberFault;
use envelopes::MAX_BYTES;
use std::marker::Model;

// A number of at most MOST.
#[derive(Clone, Copy)]
pub struct AtMost<const MOST: u64> {
    number: u64,
}

// How many slots a delay or a jitter is.
pub type Slots = AtMost<65_535>;

// How many bytes a buffer or a prefix is.
pub type Bytes = AtMost<MAX_BYTES>;

impl<const MOST: u64> Model for AtMost<MOST> {
    ghost use Rattle.std.specs.Prelude.{ℕ, ◌≤◌};

    ghost Value = { ℕ };

    ghost view = { λ n. n.number };

    ghost invariant = { λ n. n.number ≤ MOST };

    ghost inverse = { λ n. record { number = n } };
}

impl<const MOST: u64> AtMost<MOST> {
    pub fn get(self) -> u64
        ensures is { result ≡ self.entry }
        ensures bound { result ≤ MOST }
    {
        self.number
    }
}

impl<const MOST: u64> TryFrom<u64> for AtMost<MOST> {
    type Error = NumberFault;

    ghost try_from_gives = { KeptUpTo MOST };

    fn try_from(given: u64) -> Result<AtMost<MOST>, NumberFault> {
        if given > MOST {
            return Err(NumberFault { given, most: MOST });
        }
        Ok(AtMost { number: given })
    }
}

// Slots are counted in a usize.
impl<const MOST: u64> TryFrom<usize> for AtMost<MOST> {
    type Error = NumberFault;

    ghost try_from_gives = { KeptUpTo MOST };

    fn try_from(given: usize) -> Result<AtMost<MOST>, NumberFault> {
        AtMost::try_from(given as u64)
    }
}

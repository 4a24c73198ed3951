// What an envelope is: it tells how many bytes may have been sent by the end of each slot.

#![tactic(auto)]

ghost use Rattle.std.specs.Prelude.{◌≡◌};
ghost use Rattle.either.specs.Either.{either};
ghost use Rattle.envelopes.specs.Bounds.{Bounds, Limit};

use either::Either;

// The most slots of an envelope.
pub const MAX_SLOTS: usize = 1_048_575;

// The most bytes that a limit allows.
pub const MAX_BYTES: u64 = 1_099_511_627_775;

// Three questions, of which none refuses or alters anything.
pub trait Envelope {
    ghost bounds: { Self → Bounds };

    // How many slots there are: N.
    fn slots(&self) -> usize
        ensures { result ≡ (bounds self.now).slots };

    // How many bytes must have been sent by the end of slot k: L(k); past N as at N.
    fn lower(&self, k: usize) -> u64
        ensures { result ≡ (bounds self.now).lower.at k };

    // How many bytes may have been sent by the end of slot k: U(k); past N as at N.
    fn upper(&self, k: usize) -> u64
        ensures { result ≡ (bounds self.now).upper.at k };
}

// A borrowed envelope.
impl<E: Envelope> Envelope for &E {
    ghost bounds = { λ envelope. E.Envelope.bounds envelope.now };

    fn slots(&self) -> usize {
        E::slots(self)
    }

    fn lower(&self, k: usize) -> u64 {
        E::lower(self, k)
    }

    fn upper(&self, k: usize) -> u64 {
        E::upper(self, k)
    }
}

// Either of two envelopes, so that one type serves for both.
impl<A: Envelope, B: Envelope> Envelope for Either<A, B> {
    ghost bounds = { either A.Envelope.bounds B.Envelope.bounds };

    fn slots(&self) -> usize {
        match self {
            Either::Left(a) => a.slots(),
            Either::Right(b) => b.slots(),
        }
    }

    fn lower(&self, k: usize) -> u64 {
        match self {
            Either::Left(a) => a.lower(k),
            Either::Right(b) => b.lower(k),
        }
    }

    fn upper(&self, k: usize) -> u64 {
        match self {
            Either::Left(a) => a.upper(k),
            Either::Right(b) => b.upper(k),
        }
    }
}

//! Failures of calls that take memory.

use std::alloc::AllocError;

/// Why a call that takes memory gives no value: a refusal with its cause, or want of memory.
#[derive(Clone, Copy, PartialEq, Eq, Drop)]
pub enum Failure<E> {
    Refused(E),
    OutOfMemory,
}

impl<E> From<AllocError> for Failure<E> {
    ghost use Rattle.std.specs.Prelude.{◌≡◌};
    ghost use Rattle.jz_data.specs.declared.failure.Failure.TheVariants.{OutOfMemory};

    ghost from_gives = { λ _ e. e ≡ OutOfMemory };

    fn from(_: AllocError) -> Self {
        Failure::OutOfMemory
    }
}

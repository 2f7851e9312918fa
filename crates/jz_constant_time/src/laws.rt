//! What holds of the bytes of constant-time functions.

ghost use Rattle.jz_constant_time.specs.Shown.{ConstantTimeCarriesOver};

/// Where the expansion of an export function of a typed text is constant time, the branches,
/// addresses and divisions that its bytes show depend on nothing that is secret, however many steps
/// were made and wherever the code stands.
pub fn constant_time_carries_over()
    ensures { ConstantTimeCarriesOver }
{}

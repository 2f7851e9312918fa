//! Constant time of what is compiled.

ghost use Rattle.jz_no_secrets.specs.NoSecrets.{CompiledShowsNothingSecret};
ghost use Rattle.jz_no_secrets.specs.NoSecrets.{SaidShowsNothingSecret};

/// Where the expansion of an export function of a typed text is constant time, or the listing says
/// so of it, the branches, addresses and divisions that its bytes show depend on nothing that is
/// secret, however many steps were made and wherever the code stands.
pub fn compiled_functions_show_nothing_secret()
    ensures compiled { CompiledShowsNothingSecret }
    ensures said { SaidShowsNothingSecret }
{}

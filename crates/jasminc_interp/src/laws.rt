//! What holds of every typed text.

ghost use Rattle.std.specs.Prelude.{◌≡◌, ℕ, List, true, Contains};
ghost use Rattle.jz_tree.specs.declared.program.Fun.{Fun};
ghost use Rattle.jz_tree.specs.declared.program.Program.{Program};
ghost use Rattle.jz_preconditions.specs.Permitted.{MeetsWithZeros, least_arguments};
ghost use Rattle.jz_type_rows.specs.Exports.{is_exported};
ghost use Rattle.jasminc_source.specs.Texts.{TypesAs};

/// Each export function of a typed text is met by its least permitted arguments, with zero bytes in
/// its regions.
pub fn typed_functions_can_be_met()
    ensures { (text : List ℕ) (p : Program) (f : Fun)
        → TypesAs text p → Contains p.funs f → is_exported f.kind ≡ true
        → MeetsWithZeros f (least_arguments f) }
{}

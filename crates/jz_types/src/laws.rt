//! Laws of the definitions.

ghost use Rattle.std.specs.Prelude.{◌≡◌};
ghost use Rattle.jz_tree.specs.declared.program.Program.{Program};
ghost use Rattle.jz_types.specs.declared.fault.TypeFault.{TypeFault};
ghost use Rattle.jz_types.specs.Rules.{IsTyped, IsFirstTypeFault};
ghost use Rattle.jz_types.specs.Guarantees.{RowsLaw};
ghost use Rattle.jz_types.specs.Carried.{CarryingLaw, KnownLaw};

/// A program has one first fault at most.
pub fn one_fault()
    ensures { (program : Program) (fault other : TypeFault)
        → IsFirstTypeFault program fault → IsFirstTypeFault program other → fault ≡ other }
{}

/// A typed program has no fault.
pub fn no_fault_of_a_typed()
    ensures { (program : Program) (fault : TypeFault)
        → IsTyped program → IsFirstTypeFault program fault → ⊥ }
{}

/// In a typed program a row of the tables is selected for each statement that needs one, and for
/// each copy of a word that is an argument or result of a call.
pub fn statements_have_rows()
    ensures { RowsLaw }
{}

/// In a resolved program each variable that is used carries the declaration of its name, and is
/// known as what the text declares.
pub fn variables_are_declared()
    ensures carried { CarryingLaw }
    ensures known { KnownLaw }
{}

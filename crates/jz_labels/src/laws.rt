//! What holds of labels and of first breaches.

ghost use Rattle.std.specs.Prelude.{◌≡◌, List, Option, None};
ghost use Rattle.jz_tree.specs.declared.program.Param.{Param};
ghost use Rattle.jz_meaning.specs.Statements.{Block};
ghost use Rattle.jz_flow.specs.Soundness.{Monotone};
ghost use Rattle.jz_labels.specs.Operations.{plain_of, tested_by};
ghost use Rattle.jz_labels.specs.Labels.{Publics, label_steps};
ghost use Rattle.jz_labels.specs.Required.{Breach};
ghost use Rattle.jz_labels.specs.ConstantTime.{IsConstantTime, IsFirstBreach};

/// With more public scalars before an operation, a mark or a test there are more behind it. So one
/// greatest set of them stands at the head of a loop.
pub fn more_public_makes_more_public()
    ensures { (arrays : Publics) → Monotone (label_steps plain_of tested_by arrays) }
{}

/// A function has one first breach, or none.
pub fn one_first_breach()
    ensures { (params : List Param) (body : Block) (v w : Option Breach)
        → IsFirstBreach params body v → IsFirstBreach params body w → v ≡ w }
{}

/// Where there is no first breach, some labels meet the rules; where some do, there is none.
pub fn labels_or_a_breach()
    ensures labels { (params : List Param) (body : Block)
        → IsFirstBreach params body None → IsConstantTime params body }
    ensures none { (params : List Param) (body : Block) (w : Option Breach)
        → IsConstantTime params body → IsFirstBreach params body w → w ≡ None }
{}

//! What is drawn of pieces of a body has their labels.

ghost use Rattle.jz_tree.specs.Span.{Span as Place};
ghost use Rattle.jz_runs.specs.Trees as tree;
ghost use Rattle.jz_meaning.specs.Statements.{Operation, meaningless, Counter, Block};
ghost use Rattle.jz_labels.specs.Operations.{plain_of};
ghost use Rattle.jz_drawing.specs.Drawings.{View, drawn_operation};
ghost use Rattle.jz_drawing.specs.Draws.{Draws};
ghost use Rattle.jz_drawing.specs.Laws.{RenewLaw};

/// Nothing is drawn of nothing, of a mark, and of what no expanded function has; and one piece is
/// drawn after another.
pub fn pieces_are_drawn()
    ensures nothing { (v : View) → Draws (λ r. r) v v }
    ensures mark { (o : Operation) (v : View) → Draws (tree.quiet o) v v }
    ensures meaningless { (at : Place) (v : View) → Draws (tree.op (meaningless at)) v v }
    ensures each { (k : Counter) (b : Block) (v : View) → Draws (tree.each k b) v v }
    ensures both { (f g : Block → Block) (v w x : View) → Draws f v w → Draws g w x
        → Draws (λ r. f (g r)) v x }
{}

/// The value of an operation has a new label, which comes of all that it reads.
pub fn operations_are_drawn()
    ensures { (o : Operation) (v : View) → Draws (tree.op o) v (drawn_operation (plain_of o) v) }
{}

/// Labels may be drawn anew for scalars, one after another.
pub fn labels_are_renewed()
    ensures { RenewLaw }
{}

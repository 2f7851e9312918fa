//! What follows of the laws of the parts.

ghost use Rattle.jz_tree.specs.declared.program.Fun.{Fun};
ghost use Rattle.jz_tree.specs.declared.program.Program.{Program};
ghost use Rattle.jz_listing.specs.declared.compiled.Compiled.{Compiled};
ghost use Rattle.jz_compiled.specs.Matching.{CarriesOver};
ghost use Rattle.jz_compiled.specs.Correct.{IsCompilation};
ghost use Rattle.jz_joined.specs.Making.{IsMade, IsMadeWhole};

/// What the bytes of a function do carries over from its source: with each number of turns, from
/// each start on each input that meets the preconditions, with the transformer that is printed.
pub fn parts_carry_over()
    ensures { (p : Program) (f : Fun) (c : Compiled) → IsMade p f c → CarriesOver p f c }
{}

/// With the frame that the text asks, and lists that show of it what its statements name, this is
/// correct compilation.
pub fn parts_are_correct()
    ensures { (p : Program) (f : Fun) (c : Compiled) → IsMadeWhole p f c → IsCompilation p f c }
{}

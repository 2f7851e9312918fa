//! What stays of a program that is resolved.

ghost use Rattle.std.specs.Prelude.{◌≡◌, map};
ghost use Rattle.jz_type_names.specs.Parts.{span_of, statements_in};
ghost use Rattle.jz_resolve.specs.Resolving.{KnownNames, expr_with, stmt_with};
ghost use Rattle.jz_resolve.specs.Programs.{function_names, all_statement_places, resolved_program};

use jz_tree::{Expr, Program, Stmt};

/// An expression begins where it began.
pub fn expression_stays(e: &Expr)
    ensures { (k : KnownNames) → span_of (expr_with k e.now) ≡ span_of e.now }
{}

/// A statement stands where it stood, and in it there stand the same statements, resolved.
pub fn statement_stays(s: &Stmt)
    ensures span { (k : KnownNames) → (stmt_with k s.now).span ≡ s.now.span }
    ensures nested { (k : KnownNames)
        → statements_in (stmt_with k s.now) ≡ map (stmt_with k) (statements_in s.now) }
{}

/// The functions keep their names and places, and their statements stand where they stood.
pub fn functions_stay(program: &Program)
    ensures names { function_names (resolved_program program.now) ≡ function_names program.now }
    ensures statements { all_statement_places (resolved_program program.now)
        ≡ all_statement_places program.now }
{}

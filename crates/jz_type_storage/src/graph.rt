//! Which functions each function calls, by numbers.

ghost use Rattle.std.specs.Prelude.{◌≡◌, ◌++◌, List, IfOk, OnOk};
ghost use Rattle.jz_tree.specs.declared.program.Fun.{Fun};
ghost use Rattle.jz_type_storage.specs.InnerNumbers.{numbers_by, numbers_called, graph_of};
ghost use Rattle.jz_type_storage.specs.InnerTables.{IsNumbers};

use crate::numbers::Numbers;
use jz_tree::{Fun, Seq, Stmt};
use jz_type_names::{called_by, statements};
use std::alloc::{AllocError, Global};

fn add_called(list: &mut Vec<usize>, numbers: &Numbers, stmt: &Stmt) -> Result<(), AllocError>
    ensures { (fs : List Fun) → IsNumbers numbers.now fs
        → OnOk result (list.new.items ≡ list.old.items ++ numbers_by fs stmt.now) }
{
    if let Some((name, _)) = called_by(stmt) {
        if let Some(number) = numbers.number(name) {
            list.push(number)?;
        }
    }
    Ok(())
}

fn called_in(alloc: Global, numbers: &Numbers, fun: &Fun) -> Result<Seq<usize>, AllocError>
    ensures { (fs : List Fun) → IsNumbers numbers.now fs
        → IfOk result (λ ns. ns ≡ numbers_called fs fun.now) }
{
    let mut list = Vec::new(alloc);
    for stmt in statements(alloc, &fun.body)? {
        add_called(&mut list, numbers, stmt)?;
    }
    Ok(Seq::from_vec(list))
}

/// For each function the numbers of those that it calls.
pub fn graph(alloc: Global, funs: &Seq<Fun>) -> Result<Seq<Seq<usize>>, AllocError>
    ensures { IfOk result (λ g. g ≡ graph_of funs.now) }
{
    let numbers = Numbers::of(alloc, funs)?;
    let mut graph = Vec::new(alloc);
    for fun in funs.as_slice() {
        graph.push(called_in(alloc, &numbers, fun)?)?;
    }
    Ok(Seq::from_vec(graph))
}

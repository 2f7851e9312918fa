//! The lengths of arrays by the values of constants.

ghost use Rattle.std.specs.Prelude.{◌≡◌, ℤ, Option, IfOk};
ghost use Rattle.jz_tree.specs.declared.expr.Expr.{Expr};
ghost use Rattle.jz_resolve.specs.Tables.{values_in};
ghost use Rattle.jz_resolve.specs.Numbering.{value_with};

use jz_resolve::ConstantTable;
use jz_tree::Expr;
use jz_type_sizes::Lengths;
use std::alloc::{AllocError, Global};

/// The lengths that are built of the constants of a table.
#[derive(Drop)]
pub(crate) struct ConstantLengths {
    pub(crate) table: ConstantTable,
}

impl Lengths for ConstantLengths {
    ghost length_of = { λ s. value_with (values_in s.table) };

    fn length(&self, alloc: Global, e: &Expr) -> Result<Option<i128>, AllocError> {
        self.table.number_of(alloc, e)
    }
}

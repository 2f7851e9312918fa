//! What tables speak of.

ghost use Rattle.std.specs.Prelude.{◌≡◌};
ghost use Rattle.jz_layers.specs.Spots.{spot_of, variable_spot, cell_spot, without_index};

use jz_tree::{Text, Var};

/// A variable of a text, or a cell of a stack array.
#[derive(Clone, Copy, PartialEq, Eq, Hash)]
pub struct Named<'a> {
    pub name: &'a Text,
    pub copy: u32,
    /// Of a scalar, which cell of a register array it was.
    pub cell: Option<u32>,
    /// Of a stack array, which cell is meant.
    pub index: Option<u64>,
}

impl<'a> Named<'a> {
    /// The variable.
    pub fn of(var: &'a Var) -> Named<'a>
        ensures { spot_of result ≡ variable_spot var.now }
    {
        Named {
            name: &var.name,
            copy: var.copy,
            cell: var.cell,
            index: None,
        }
    }

    /// A cell of the stack array.
    pub fn cell_of(var: &'a Var, index: u64) -> Named<'a>
        ensures { spot_of result ≡ cell_spot var.now index }
    {
        Named {
            name: &var.name,
            copy: var.copy,
            cell: var.cell,
            index: Some(index),
        }
    }

    /// The array of a cell by an index.
    pub fn whole(self) -> Named<'a>
        ensures { spot_of result ≡ without_index (spot_of self.entry) }
    {
        Named {
            name: self.name,
            copy: self.copy,
            cell: self.cell,
            index: None,
        }
    }
}

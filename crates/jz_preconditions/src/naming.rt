//! Whether preconditions name parameters.

ghost use Rattle.std.specs.Prelude.{◌≡◌};
ghost use Rattle.jz_preconditions.specs.Naming.{names_pointer, names_one, names_parameters};
ghost use Rattle.jz_preconditions.specs.Naming.{names_region, is_precondition};
ghost use Rattle.jz_preconditions.specs.InnerTables.{parameter_in};

use crate::parameters::{Parameters, is_pointer, known_by};
use jz_annotations::Pre;
use jz_tree::{Note, Text};

/// Whether it is the name of a `reg u64`.
fn names_pointer(parameters: &Parameters, name: &Text) -> bool
    ensures { result ≡ names_pointer (parameter_in parameters.now) name.now }
{
    is_pointer(known_by(parameters.named(name)))
}

fn names_one(parameters: &Parameters, name: &Text) -> bool
    ensures { result ≡ names_one (parameter_in parameters.now) name.now }
{
    parameters.named(name).is_some()
}

fn names_region(parameters: &Parameters, pointer: &Text, variable: &Option<Text>) -> bool
    ensures { result ≡ names_region (parameter_in parameters.now) pointer.now variable.now }
{
    match variable {
        None => names_pointer(parameters, pointer),
        Some(variable) => {
            names_pointer(parameters, pointer)
                && names_pointer(parameters, variable)
                && pointer != variable
        }
    }
}

/// Whether each name of a precondition is a parameter's that it may name.
pub(crate) fn names_parameters(parameters: &Parameters, pre: &Pre) -> bool
    ensures { result ≡ names_parameters (parameter_in parameters.now) pre.now }
{
    match pre {
        Pre::Region {
            pointer,
            variable,
            ..
        } => names_region(parameters, pointer, variable),
        Pre::Range { name, .. } => names_one(parameters, name),
        Pre::Align { pointer, .. } => names_one(parameters, pointer),
    }
}

/// Whether an entry has to be a precondition, by its name.
pub(crate) fn is_precondition(note: &Note) -> bool
    ensures { result ≡ is_precondition note.now }
{
    let name = note.name.as_str();
    name == "region" || name == "range" || name == "align"
}

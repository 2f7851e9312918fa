//! The judgement.

ghost use Rattle.std.specs.Prelude.{◌≡◌, ◌↔◌, IfOk};
ghost use Rattle.jz_layers.specs.Spots.{variable_key};
ghost use Rattle.jz_labels.specs.Labels.{named};
ghost use Rattle.jz_required.specs.Kept.{origin_of};
ghost use Rattle.jz_required.specs.Readings as readings;
ghost use Rattle.jz_drawing.specs.Drawings.{IsFree};
ghost use Rattle.jz_ct.specs.declared.judging.Ct.TheVariants as judged;
ghost use Rattle.jz_ct.specs.Told as told;
ghost use Rattle.jz_function_runs.specs.FunctionRuns.{plain_body};
ghost use Rattle.jz_ct.specs.Told.{told_by, IsConstantTime, HasFirstBreach};

use crate::breach::{Breach, Secret};
use jz_breaches::first_breach;
use jz_one_expansion::Expanded;
use jz_required::Part;
use jz_tree::{Fun, Var};
use std::alloc::{AllocError, Global};

/// Whether a function is constant time: yes, or no and its first breach.
#[derive(Drop)]
pub enum Ct {
    Yes,
    No(Breach),
}

fn secret_variable(var: &Var) -> Result<Secret, AllocError>
    ensures { IfOk result (λ s. told.secret_of s
        ≡ named (variable_key var.now).name (variable_key var.now).cell) }
{
    let name = var.name.clone()?;
    Ok(Secret::Variable(name, var.cell))
}

fn secret_of(part: Part<'_>) -> Result<Secret, AllocError>
    ensures { IfOk result
        (λ s. told.secret_of s ≡ readings.secret_of (origin_of part.entry)) }
{
    match part {
        Part::Memory => Ok(Secret::Memory),
        Part::Scalar(var) => {
            let secret = secret_variable(var)?;
            Ok(secret)
        }
        Part::Array(var) => {
            let secret = secret_variable(var)?;
            Ok(secret)
        }
    }
}

/// The same of a function in which there is neither a call nor a `for`.
fn judge_function(alloc: Global, fun: &Fun) -> Result<Ct, AllocError>
    requires { IsFree (plain_body fun.now) }
    ensures { IfOk result (λ ct. HasFirstBreach fun.now (told_by ct)) }
{
    let first = first_breach(alloc, &fun.params, &fun.body)?;
    match first {
        None => Ok(Ct::Yes),
        Some(found) => {
            let secret = secret_of(found.part)?;
            Ok(Ct::No(Breach {
                span: found.span,
                why: found.why,
                secret,
            }))
        }
    }
}

/// Whether some labels of an expanded function meet the rules of constant time, or else its first
/// breach in expanded order under the labels with the fewest secrets. Work and memory are linear in
/// the function, times the depth of its nesting. The stack grows with that depth.
pub fn judge(alloc: Global, expanded: &Expanded) -> Result<Ct, AllocError>
    ensures yes { IfOk result (λ ct. (ct ≡ judged.Yes) ↔ IsConstantTime expanded.now.fun) }
    ensures breach { IfOk result (λ ct. HasFirstBreach expanded.now.fun (told_by ct)) }
{
    expanded.is_expanded();
    let ct = judge_function(alloc, expanded.fun())?;
    Ok(ct)
}

//! The row of LEA.

ghost use Rattle.std.specs.Prelude.{◌≡◌};
ghost use Rattle.jz_words.specs.declared.size.Size.TheVariants.{S64};
ghost use Rattle.jz_one_flag_row.specs.Forms.{IsLea};
ghost use Rattle.jz_instructions.specs.TableHomes.{homes_of};
ghost use Rattle.jz_instructions.specs.Refusals.{FindsOr};
ghost use Rattle.jz_pinned_rows.specs.Rows.{FindsActs};
ghost use Rattle.jz_instructions.specs.InnerRows.{IsLeaOf, NeverLea, NeverFree};

use jz_operands::{Found, Homes, address_of, displacement, scale, terms_of};
use jz_operations::{Action, Address};
use jz_pinned_rows::Acts;
use jz_rows::{Act, Shown, Target};
use jz_tree::Expr;

/// An address without a base: a number, and perhaps a variable with a factor other than 1.
fn free_address(homes: &Homes, at: &Expr) -> Option<Address>
    ensures { let home = homes_of homes.now in
        FindsOr result (IsLeaOf home at.now) (NeverFree home at.now) }
{
    let terms = terms_of(homes, at)?;
    let disp = displacement(terms.number)?;
    match terms.found {
        Found::Nothing => Some(Address {
            base: None,
            index: None,
            disp,
        }),
        Found::One(term) => {
            if term.factor == 1 {
                return None;
            }
            let scale = scale(term.factor)?;
            Some(Address {
                base: None,
                index: Some((term.variable, scale)),
                disp,
            })
        }
        Found::Two(_, _) => None,
    }
}

/// The address that an expression is, with a base or without.
fn lea_address(homes: &Homes, at: &Expr) -> Option<Address>
    ensures { let home = homes_of homes.now in
        FindsOr result (IsLeaOf home at.now) (NeverLea home at.now) }
{
    match address_of(homes, at) {
        Some(address) => Some(address),
        None => free_address(homes, at),
    }
}

/// The address itself in a register.
pub(crate) fn lea_row(target: &Target<'_>, operand: &Expr) -> Option<Acts>
    requires { target.now.size ≡ S64 }
    ensures { let home = homes_of target.now.homes.now in
        FindsActs (IsLea home target.now.to.now operand.now) result }
{
    let address = lea_address(target.homes, operand)?;
    let register = target.register()?;
    Some(Acts {
        before: None,
        between: None,
        last: Act {
            action: Action::Lea(register, address),
            shown: Shown {
                first: None,
                second: None,
            },
        },
        divided: None,
    })
}

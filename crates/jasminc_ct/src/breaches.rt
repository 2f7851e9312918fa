//! The line of a breach.

ghost use Rattle.std.specs.Prelude.{◌≡◌, ◌++◌, OnOk};
ghost use Rattle.jasminc_ct.specs.BreachLines.{kind_name, secret_text, breach_line};

use jz_ct::{Breach, Reason, Secret};
use jz_text::write_span;
use jz_tree::Text;
use jz_variable_text::write_variable;
use std::alloc::AllocError;

/// An export function, and its first breach.
#[derive(Drop)]
pub struct FunBreach {
    pub fun: Text,
    pub breach: Breach,
}

#[tactic(auto, unfolding(crate::specs::BreachLines::kind_name))]
fn kind_name(why: Reason) -> &'static str
    ensures { result.now ≡ kind_name why }
{
    match why {
        Reason::Branch => "Branch",
        Reason::Address => "Address",
        Reason::Divide => "Divide",
    }
}

fn write_secret(line: &mut Vec<u8>, secret: &Secret) -> Result<(), AllocError>
    ensures { OnOk result (line.new.items ≡ line.old.items ++ secret_text secret.now) }
{
    match secret {
        Secret::Variable(name, cell) => write_variable(line, name, *cell),
        Secret::Memory => line.extend_from_slice(b"mem"),
    }
}

/// The line of a breach, without its line feed.
pub fn write_breach(line: &mut Vec<u8>, found: &FunBreach) -> Result<(), AllocError>
    ensures { OnOk result (line.new.items ≡ line.old.items ++ breach_line found.now) }
{
    line.extend_from_slice(b"ct ")?;
    line.extend_from_slice(found.fun.as_str().as_bytes())?;
    line.extend_from_slice(b" no ")?;
    write_span(line, found.breach.span)?;
    line.extend_from_slice(b" ")?;
    line.extend_from_slice(kind_name(found.breach.why).as_bytes())?;
    line.extend_from_slice(b" ")?;
    write_secret(line, &found.breach.secret)
}

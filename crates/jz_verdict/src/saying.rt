//! A judgement as it is listed.

ghost use Rattle.std.specs.Prelude.{◌≡◌, ◌++◌, IfOk, OnOk, string_bytes};
ghost use Rattle.jz_required.specs.Kept.{reason_of};
ghost use Rattle.jz_ct.specs.Told.{secret_of, breach_of};
ghost use Rattle.jz_verdict.specs.Said as listed;
ghost use Rattle.jz_verdict.specs.Said.{secret_text, IsSaidOf, IsListedOf};

use jz_ct::{Breach, Expanded, Reason, Secret, judge};
use jz_data::Text;
use jz_io::{Ct, CtKind};
use jz_variable_text::push_variable;
use std::alloc::{AllocError, Global};

fn kind_of(why: Reason) -> CtKind
    ensures { listed.reason_of result ≡ reason_of why }
{
    match why {
        Reason::Branch => CtKind::Branch,
        Reason::Address => CtKind::Address,
        Reason::Divide => CtKind::Divide,
    }
}

fn push_secret(text: &mut String, secret: &Secret) -> Result<(), AllocError>
    ensures { OnOk result
        (string_bytes text.new ≡ string_bytes text.old ++ secret_text (secret_of secret.now)) }
{
    match secret {
        Secret::Variable(name, cell) => push_variable(text, name, *cell),
        Secret::Memory => text.push_str("mem"),
    }
}

fn secret_name(alloc: Global, secret: &Secret) -> Result<Text, AllocError>
    ensures { IfOk result (λ name. name ≡ secret_text (secret_of secret.now)) }
{
    let mut text = String::new(alloc);
    push_secret(&mut text, secret)?;
    Ok(Text::from_string(text))
}

fn breach(alloc: Global, found: Breach) -> Result<Ct, AllocError>
    ensures { IfOk result (IsListedOf (breach_of found)) }
{
    let var = secret_name(alloc, &found.secret)?;
    let kind = kind_of(found.why);
    Ok(Ct::No {
        span: found.span,
        kind,
        var,
    })
}

/// What is listed of an expanded function: that it is constant time, or the place, the kind and the
/// variable of its first breach.
pub fn said(alloc: Global, expanded: &Expanded) -> Result<Ct, AllocError>
    ensures { IfOk result (IsSaidOf expanded.now.fun) }
{
    let ct = judge(alloc, expanded)?;
    match ct {
        jz_ct::Ct::Yes => Ok(Ct::Yes),
        jz_ct::Ct::No(found) => {
            let listed = breach(alloc, found)?;
            Ok(listed)
        }
    }
}

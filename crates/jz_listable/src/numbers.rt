//! That the numbers of compiled functions have the sizes of their types. Each function looks at all
//! parts of a value and gives nothing: what it says is what the types of the parts say.

ghost use Rattle.std.specs.Prelude.{◌≡◌, ◌<◌, ◌^◌, ℕ, true, All, map};
ghost use Rattle.jz_listing.specs.Listable.{case_fits, form_fits, out_fits, outs_fit, parts_fit, tr_fits, transformer_fits};
ghost use Rattle.jz_listable.specs.Sizes.{HasSizes, HasSmallPlace};

use jz_io::{Ct, Span};
use jz_leak::{Case, Form, Out, Seq, Tr, Transformer};
use jz_listing::Compiled;

fn form_is_sized(form: Form)
    ensures { form_fits form ≡ true }
{}

fn event_is_sized(out: Out)
    ensures { out_fits out ≡ true }
{
    match out {
        Out::Branch(_) => {}
        Out::Addr(address) => form_is_sized(address),
        Out::Div(high, low, divisor) => {
            form_is_sized(high);
            form_is_sized(low);
            form_is_sized(divisor);
        }
    }
}

fn events_are_sized(outs: &Seq<Out>)
    ensures { outs_fit outs.now ≡ true }
{
    for out in outs.as_slice() {
        event_is_sized(*out);
    }
}

#[cycle(sized)]
fn case_is_sized(case: &Case)
    ensures { case_fits case.now ≡ true }
{
    match case {
        Case::Op(outs) => events_are_sized(outs),
        Case::If {
            test,
            then_outs,
            then_tr,
            else_outs,
            else_tr,
        } => {
            events_are_sized(test);
            arm_is_sized(then_outs, then_tr);
            arm_is_sized(else_outs, else_tr);
        }
        Case::While {
            prologue,
            test,
            more_outs,
            body,
            leave_outs,
        } => {
            tree_is_sized(prologue);
            events_are_sized(test);
            arm_is_sized(more_outs, body);
            events_are_sized(leave_outs);
        }
        Case::For(trs) => trees_are_sized(trs),
        Case::Call {
            arguments,
            body,
            results,
        } => {
            arm_is_sized(arguments, body);
            events_are_sized(results);
        }
    }
}

#[cycle(sized)]
fn arm_is_sized(outs: &Seq<Out>, tr: &Tr)
    ensures outs { outs_fit outs.now ≡ true }
    ensures tr { tr_fits tr.now ≡ true }
{
    events_are_sized(outs);
    tree_is_sized(tr);
}

#[cycle(sized)]
fn tree_is_sized(tr: &Tr)
    ensures { tr_fits tr.now ≡ true }
{
    cases_are_sized(&tr.cases);
}

#[cycle(sized)]
fn cases_are_sized(cases: &Seq<Case>)
    ensures { parts_fit (map case_fits cases.now) ≡ true }
{
    for case in cases.as_slice() {
        case_is_sized(case);
    }
}

#[cycle(sized)]
fn trees_are_sized(trs: &Seq<Tr>)
    ensures { parts_fit (map tr_fits trs.now) ≡ true }
{
    for tr in trs.as_slice() {
        tree_is_sized(tr);
    }
}

fn transformer_is_sized(tr: &Transformer)
    ensures { transformer_fits tr.now ≡ true }
{
    events_are_sized(&tr.before);
    tree_is_sized(&tr.body);
    events_are_sized(&tr.after);
}

fn span_is_sized(span: Span)
    ensures line { span.line < 2 ^ 32 }
    ensures col { span.col < 2 ^ 32 }
{}

fn place_is_sized(ct: &Ct)
    ensures { HasSmallPlace ct.now }
{
    match ct {
        Ct::Yes => {}
        Ct::No {
            span,
            kind: _,
            var: _,
        } => span_is_sized(*span),
    }
}

fn number_is_sized(n: u64)
    ensures { n < 2 ^ 64 }
{}

fn bytes_are_sized(code: &[u8])
    ensures { All (λ (b : ℕ). b < 256) code.now }
{}

fn function_is_sized(compiled: &Compiled)
    ensures { HasSizes compiled.now }
{
    number_is_sized(compiled.frame);
    number_is_sized(compiled.insns);
    bytes_are_sized(compiled.code.as_slice());
    transformer_is_sized(&compiled.tr);
    place_is_sized(&compiled.ct);
}

/// Numbers of compiled functions have the sizes of their types.
pub fn functions_are_sized(compiled: &[Compiled])
    ensures { All HasSizes compiled.now }
{
    for function in compiled {
        function_is_sized(function);
    }
}

//! Which variables of a function are inline.

ghost use Rattle.std.specs.Prelude.{◌≡◌, List, [], ◌∷◌, ◌++◌, IfOk, OnOk};
ghost use Rattle.jz_tree.specs.declared.expr.Var.{Var as Variable};
ghost use Rattle.jz_type_names.specs.Scopes.{variables_of};
ghost use Rattle.jz_unroll.specs.Unrolling.{marked_vars};
ghost use Rattle.jz_unrolling_values.specs.InlineNames.{names_in, AreInline};

use jz_meaning::{Store, Value};
use jz_tree::{Fun, Seq, Text, Var};
use jz_type_names::{is_inline_int, known};
use std::alloc::{AllocError, Global};

/// Which variables are inline, by name and copy.
#[derive(Drop)]
pub struct InlineVars {
    marks: Store,
}

impl InlineVars {
    fn none(alloc: Global) -> InlineVars
        ensures { AreInline result [] }
    {
        InlineVars {
            marks: Store::new(alloc),
        }
    }

    /// Whether the variable of that name, in that copy, is inline.
    pub fn has(&self, name: &Text, copy: u32) -> bool
        ensures { result ≡ names_in self.now name.now copy }
    {
        match self.marks.get(name, copy, None) {
            None => false,
            Some(_) => true,
        }
    }

    fn add(&mut self, var: &Var) -> Result<(), AllocError>
        ensures { OnOk result ((vs : List Variable) → AreInline self.old vs
            → AreInline self.new (vs ++ var.now ∷ [])) }
    {
        if is_inline_int(known(var)) {
            let mark = Some(Value::Bool(true));
            self.marks.put(&var.name, var.copy, None, mark)?;
        }
        Ok(())
    }

    /// Those of a function, by the declarations of its parameters and variables.
    pub fn of(alloc: Global, fun: &Fun) -> Result<InlineVars, AllocError>
        ensures { IfOk result (λ vars. AreInline vars (variables_of fun.now)) }
    {
        let mut vars = InlineVars::none(alloc);
        for param in fun.params.as_slice() {
            vars.add(&param.var)?;
        }
        for var in fun.vars.as_slice() {
            vars.add(var)?;
        }
        Ok(vars)
    }

    /// The variables that are not inline, in their order.
    pub fn plain_among(&self, alloc: Global, vars: &Seq<Var>) -> Result<Seq<Var>, AllocError>
        ensures { IfOk result (λ plain. plain ≡ marked_vars (names_in self.now) vars.now) }
    {
        let mut plain = Seq::new(alloc);
        for var in vars.as_slice() {
            if !self.has(&var.name, var.copy) {
                plain.push(var.copy(alloc)?)?;
            }
        }
        Ok(plain)
    }
}

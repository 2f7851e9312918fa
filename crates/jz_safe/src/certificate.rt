//! What says of an expansion that it has no alarm.

ghost use Rattle.std.specs.Prelude.{◌≡◌};
ghost use Rattle.jz_function_runs.specs.FunctionRuns.{plain_body};
ghost use Rattle.jz_never_stuck.specs.Safety.{HasNoAlarm};
ghost use Rattle.jz_safe.specs.Texts.{IsOfText};

use jz_one_expansion::Expanded;

/// The expansion of an export function of a typed text, of which no condition is left open by the
/// facts under its preconditions.
#[derive(Drop)]
pub struct Safe {
    pub(crate) expanded: Expanded,
    pub ghost text: { ∥ IsOfText expanded ∥₁ },
    pub ghost rule: { ∥ HasNoAlarm (plain_body expanded.fun) expanded.fun ∥₁ },
}

impl Safe {
    /// The expansion.
    pub fn expanded(&self) -> &Expanded
        ensures { result.now ≡ self.now.expanded }
    {
        &self.expanded
    }

    /// The expansion, given back.
    pub fn into_expanded(self) -> Expanded
        ensures { result ≡ self.expanded }
    {
        let Safe { expanded, .. } = self;
        expanded
    }

    /// It is that of an export function of a typed text.
    pub fn is_of_text(&self)
        ensures { ∥ IsOfText self.now.expanded ∥₁ }
    {}

    /// It has no alarm.
    pub fn has_no_alarm(&self)
        ensures { let fun = self.now.expanded.fun in ∥ HasNoAlarm (plain_body fun) fun ∥₁ }
    {}
}

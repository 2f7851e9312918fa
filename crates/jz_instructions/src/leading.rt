//! The flags that lead the results of an intrinsic.

ghost use Rattle.jz_flag_rows.specs.Results.{AreTwo, AreFour, AreFive};
ghost use Rattle.jz_one_flag_row.specs.Forms.{AreLed};
ghost use Rattle.jz_instructions.specs.TableHomes.{homes_of};
ghost use Rattle.jz_instructions.specs.Refusals.{FindsOr};
ghost use Rattle.jz_instructions.specs.InnerRows.{lead_in, NeverLed};

use crate::forms::Lead;
use jz_operands::Homes;
use jz_operations::Flags;
use jz_pinned_rows::{flag_result, no_flags};
use jz_tree::Lval;

fn two_led<'a>(homes: &Homes, to: &'a [Lval]) -> Option<(Flags, &'a [Lval])>
    ensures { let home = homes_of homes.now in
        FindsOr result (λ r. AreTwo home to.now r.0 r.1.now) (NeverLed (AreTwo home to.now)) }
{
    match to {
        [of, cf, rest @ ..] => {
            let of = flag_result(homes, of)?;
            let cf = flag_result(homes, cf)?;
            let flags = Flags {
                of,
                cf,
                sf: None,
                pf: None,
                zf: None,
            };
            Some((flags, rest))
        }
        _ => None,
    }
}

fn four_led<'a>(homes: &Homes, to: &'a [Lval]) -> Option<(Flags, &'a [Lval])>
    ensures { let home = homes_of homes.now in
        FindsOr result (λ r. AreFour home to.now r.0 r.1.now) (NeverLed (AreFour home to.now)) }
{
    match to {
        [of, sf, pf, zf, rest @ ..] => {
            let of = flag_result(homes, of)?;
            let sf = flag_result(homes, sf)?;
            let pf = flag_result(homes, pf)?;
            let zf = flag_result(homes, zf)?;
            let flags = Flags {
                of,
                cf: None,
                sf,
                pf,
                zf,
            };
            Some((flags, rest))
        }
        _ => None,
    }
}

fn five_led<'a>(homes: &Homes, to: &'a [Lval]) -> Option<(Flags, &'a [Lval])>
    ensures { let home = homes_of homes.now in
        FindsOr result (λ r. AreFive home to.now r.0 r.1.now) (NeverLed (AreFive home to.now)) }
{
    match to {
        [of, cf, sf, pf, zf, rest @ ..] => {
            let of = flag_result(homes, of)?;
            let cf = flag_result(homes, cf)?;
            let sf = flag_result(homes, sf)?;
            let pf = flag_result(homes, pf)?;
            let zf = flag_result(homes, zf)?;
            Some((Flags { of, cf, sf, pf, zf }, rest))
        }
        _ => None,
    }
}

/// The variables of the flags that lead, and the left sides behind them.
pub(crate) fn led<'a>(homes: &Homes, lead: Lead, to: &'a [Lval]) -> Option<(Flags, &'a [Lval])>
    ensures { let home = homes_of homes.now in
        FindsOr result (λ r. AreLed home (lead_in lead) to.now r.0 r.1.now)
        (NeverLed (AreLed home (lead_in lead) to.now)) }
{
    match lead {
        Lead::Nothing => Some((no_flags(), to)),
        Lead::Two => two_led(homes, to),
        Lead::Four => four_led(homes, to),
        Lead::Five => five_led(homes, to),
    }
}

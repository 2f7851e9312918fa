//! Regions of memory, and accesses that lie in them.

ghost use Rattle.std.specs.Prelude.{◌≡◌, ◌≤◌, ◌^◌, ◌&&◌, ◌||◌, map, option_map};
ghost use Rattle.x64_insn.specs.Sizes.{bytes_of};
ghost use Rattle.jz_layers.specs.Spots.{variable_key};
ghost use Rattle.jz_facts.specs.Facts.{Is, Under, least_of, lo_of};
ghost use Rattle.jz_fact_sets.specs.Kept.{start_of, region_of};
ghost use Rattle.jz_inside.specs.Said.{given_in, facts_in};
ghost use Rattle.jz_alarms.specs.Conditions as conditions;
ghost use Rattle.jz_wide.specs.Values.{value};
ghost use Rattle.jz_wide.specs.Sums.{shown, AreFew};
ghost use Rattle.jz_inside.specs.InnerSums.{scaled_of};
ghost use Rattle.jz_inside.specs.InnerReadings.{reading_of, interval_of};

use crate::sums::Scaled;
use jz_fact_readings::Knows;
use jz_fact_sets::{Parameter, Region, Saying, is_named, known};
use jz_facts::same_variable;
use jz_tree::Var;
use jz_wide::{Numbers, Wide};
use x64_insn::Size;

/// A base, an index that is scaled, and numbers.
#[derive(Clone, Copy)]
pub(crate) struct Reading<'e> {
    pub(crate) base: &'e Var,
    pub(crate) index: Option<Scaled<'e>>,
    pub(crate) more: Numbers,
}

/// The ends of what an index may be.
#[derive(Clone, Copy)]
struct Ends {
    lo: Wide,
    hi: Wide,
}

/// The least value that a parameter's range permits.
fn lowest(param: &Parameter) -> u64
    ensures { result ≡ lo_of (start_of param.now) }
{
    match param.range {
        None => 0,
        Some(range) => range.lo,
    }
}

/// The least value that a parameter of this name may have at entry.
fn least_at_entry(params: &[Parameter], var: &Var) -> u64
    ensures { result ≡ least_of (map start_of params.now) (variable_key var.now) }
{
    for param in params {
        if same_variable(&param.var, var) {
            return lowest(param);
        }
    }
    0
}

/// The length of a region that is there at least.
fn least_length(says: Saying<'_, '_>, region: &Region) -> u128
    ensures { result ≡ conditions.least_length (given_in says.entry)
        (facts_in says.entry) (region_of region.now) }
{
    let plus = region.plus as u128;
    match &region.by {
        None => plus,
        Some(by) => {
            let least = least_at_entry(says.given.params.as_slice(), by);
            (region.times as u128) * (least as u128) + plus
        }
    }
}

/// What an index may be, scaled.
fn scaled_ends(says: Saying<'_, '_>, index: Option<Scaled<'_>>) -> Ends
    ensures { interval_of result ≡ conditions.scaled_interval (given_in says.entry)
        (facts_in says.entry) (option_map scaled_of index.entry) }
{
    match index {
        None => Ends {
            lo: Wide::of(0),
            hi: Wide::of(0),
        },
        Some(scaled) => {
            let index = says.interval_of(Size::S64, scaled.var);
            Ends {
                lo: Wide::product(scaled.by, index.lo),
                hi: Wide::product(scaled.by, index.hi),
            }
        }
    }
}

/// Whether a variable is said to be what the region's parameter was.
fn is_base(says: Saying<'_, '_>, base: &Var, region: &Region) -> bool
    ensures { result ≡ facts_in says.entry
        (Is (variable_key base.now) (region_of region.now).of) }
{
    let kept = known(says.set, base);
    is_named(says.given.params.as_slice(), kept.is, &region.of)
}

/// Whether a variable is said to be below a parameter.
fn is_under(says: Saying<'_, '_>, var: &Var, param: &Var) -> bool
    ensures { result ≡ facts_in says.entry
        (Under (variable_key var.now) (variable_key param.now)) }
{
    let kept = known(says.set, var);
    is_named(says.given.params.as_slice(), kept.under, param)
}

/// Whether an index is below the parameter of the region's length, and so the access inside.
fn is_below_length(
    says: Saying<'_, '_>,
    index: Option<Scaled<'_>>,
    region: &Region,
    more: Numbers,
) -> bool
    requires { value more.taken ≤ 2 ^ 191 }
    ensures { result ≡ conditions.below_length (given_in says.entry)
        (facts_in says.entry) (option_map scaled_of index.entry)
        (region_of region.now) (shown more) }
{
    match index {
        None => false,
        Some(index) => match &region.by {
            None => false,
            Some(by) => {
                let end = (region.plus as u128) + (region.times as u128);
                is_under(says, index.var, by)
                    && (index.by <= (region.times as u128) && more.is_to(Wide::of(0), end))
            }
        },
    }
}

/// The first two, and one of the others.
fn all_of(based: bool, low: bool, inside: bool, below: bool) -> bool
    ensures { result ≡ (based && (low && (inside || below))) }
{
    based && (low && (inside || below))
}

/// Whether the bytes of a size at a reading lie in a region.
fn is_in(says: Saying<'_, '_>, size: Size, reading: Reading<'_>, region: &Region) -> bool
    requires { AreFew reading.more }
    ensures { result ≡ conditions.is_inside (given_in says.entry)
        (facts_in says.entry) (bytes_of size)
        (reading_of reading.entry) (region_of region.now) }
{
    let based = is_base(says, reading.base, region);
    let index = scaled_ends(says, reading.index);
    let low = reading.more.is_from_zero(index.lo);
    let more = reading.more.with_size(size);
    let length = least_length(says, region);
    let inside = more.is_to(index.hi, length);
    let below = is_below_length(says, reading.index, region, more);
    all_of(based, low, inside, below)
}

/// Whether they lie in some region.
pub(crate) fn in_some_region(says: Saying<'_, '_>, size: Size, reading: Reading<'_>) -> bool
    requires { AreFew reading.more }
    ensures { let given = given_in says.entry in
        result ≡ conditions.in_some_region given
        (facts_in says.entry) (bytes_of size)
        (reading_of reading.entry) given.regions }
{
    for region in says.given.regions.as_slice() {
        if is_in(says, size, reading, region) {
            return true;
        }
    }
    false
}

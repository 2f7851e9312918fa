//! What preconditions state of a parameter.

ghost use Rattle.std.specs.Prelude.{◌≡◌, option_map};
ghost use Rattle.jz_preconditions.specs.Bounds as bounds;
ghost use Rattle.jz_given.specs.Ranges.{interval_of};

use jz_annotations::Pre;
use jz_intervals::Interval;
use jz_tree::{Seq, Text};

fn range_in(pre: &Pre, param: &Text) -> Option<Interval>
    ensures { result ≡ option_map interval_of (bounds.range_in param.now pre.now) }
{
    match pre {
        Pre::Region {
            pointer: _,
            factor: _,
            variable: _,
            constant: _,
        } => None,
        Pre::Range { name, low, high } => {
            if param.as_str() == name.as_str() {
                return Some(Interval {
                    lo: *low,
                    hi: *high,
                });
            }
            None
        }
        Pre::Align {
            pointer: _,
            multiple: _,
        } => None,
    }
}

/// The first range of a parameter.
pub fn range_of(pres: &Seq<Pre>, param: &Text) -> Option<Interval>
    ensures { result ≡ option_map interval_of (bounds.range_of pres.now param.now) }
{
    for pre in pres.as_slice() {
        let range = range_in(pre, param);
        if range.is_some() {
            return range;
        }
    }
    None
}

fn multiple_in(pre: &Pre, param: &Text) -> Option<u64>
    ensures { result ≡ bounds.multiple_in param.now pre.now }
{
    match pre {
        Pre::Region {
            pointer: _,
            factor: _,
            variable: _,
            constant: _,
        } => None,
        Pre::Range {
            name: _,
            low: _,
            high: _,
        } => None,
        Pre::Align { pointer, multiple } => {
            if param.as_str() == pointer.as_str() {
                return Some(*multiple);
            }
            None
        }
    }
}

/// The first alignment of a parameter.
pub fn multiple_of(pres: &Seq<Pre>, param: &Text) -> Option<u64>
    ensures { result ≡ bounds.multiple_of pres.now param.now }
{
    for pre in pres.as_slice() {
        let multiple = multiple_in(pre, param);
        if multiple.is_some() {
            return multiple;
        }
    }
    None
}

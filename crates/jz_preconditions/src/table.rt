//! What is asked of each parameter.

ghost use Rattle.std.specs.Prelude.{◌≡◌, ◌<◌, ◌^◌, [], List, IfOk, OnOk};
ghost use Rattle.std.specs.List.{list_all};
ghost use Rattle.jz_type_names.specs.Order.{earliest, first_in};
ghost use Rattle.jz_preconditions.specs.declared.stated.Stated.{Stated};
ghost use Rattle.jz_preconditions.specs.Naming.{ParametersByName, parameters_of};
ghost use Rattle.jz_preconditions.specs.Bounds.{least, least_or_zero, least_if_named, end_of};
ghost use Rattle.jz_preconditions.specs.Refusals.{has_value, first_bound, valueless_places};
ghost use Rattle.jz_preconditions.specs.Refusals.{is_far, far_places, far_in, is_again};
ghost use Rattle.jz_preconditions.specs.Refusals.{again_places, repeated_after};
ghost use Rattle.jz_preconditions.specs.InnerTables.{IsTable, AddsStated, seen_in, parameter_in};

use crate::least::{Interval, fitting};
use crate::parameters::{Parameters, known_by, values_of};
use crate::stated::Stated;
use jz_annotations::Pre;
use jz_tree::{Fun, Seq, Span, Text};
use jz_type_names::{ByName, Places, earlier_of, unless};
use std::alloc::{AllocError, Global};

/// The parameters by their names, and of each the first range, the first alignment, and the place
/// of the first of both.
#[derive(Drop)]
pub(crate) struct Table<'a> {
    pub(crate) parameters: Parameters<'a>,
    ranges: ByName<Interval>,
    multiples: ByName<u64>,
    places: Places,
}

impl<'a> Table<'a> {
    pub(crate) fn new(alloc: Global, fun: &'a Fun) -> Result<Table<'a>, AllocError>
        ensures { IfOk result (λ t. IsTable t (parameters_of fun.now) []) }
    {
        let parameters = Parameters::of(alloc, fun)?;
        Ok(Table {
            parameters,
            ranges: ByName::new(alloc),
            multiples: ByName::new(alloc),
            places: Places::new(alloc),
        })
    }

    fn add(&mut self, stated: &Stated) -> Result<(), AllocError>
        ensures { OnOk result (AddsStated self.old self.new stated.now) }
    {
        match &stated.pre {
            Pre::Region { .. } => Ok(()),
            Pre::Range { name, low, high } => {
                let range = Interval {
                    low: *low,
                    high: *high,
                };
                self.ranges.add(name, range)?;
                self.places.add(name, stated.span)?;
                Ok(())
            }
            Pre::Align { pointer, multiple } => {
                self.multiples.add(pointer, *multiple)?;
                self.places.add(pointer, stated.span)?;
                Ok(())
            }
        }
    }

    /// Whether the parameter has a range, or an alignment, already.
    fn is_again(&self, pre: &Pre) -> bool
        ensures { result ≡ is_again (seen_in self.now) pre.now }
    {
        match pre {
            Pre::Region { .. } => false,
            Pre::Range { name, .. } => self.ranges.get(name).is_some(),
            Pre::Align { pointer, .. } => self.multiples.get(pointer).is_some(),
        }
    }

    fn again(&self, stated: &Stated) -> Option<Span>
        ensures { result ≡ earliest (again_places (seen_in self.now) stated.now) }
    {
        unless(!self.is_again(&stated.pre), stated.span)
    }

    /// Adds what is stated, and gives the first second range or alignment of a parameter.
    pub(crate) fn add_all(&mut self, stated: &Seq<Stated>) -> Result<Option<Span>, AllocError>
        ensures repeated { IfOk result (λ at. (ps : ParametersByName) → IsTable self.old ps []
            → at ≡ earliest (repeated_after ps [] stated.now)) }
        ensures added { OnOk result ((ps : ParametersByName) → IsTable self.old ps []
            → IsTable self.new ps stated.now) }
    {
        let mut first = None;
        for one in stated.as_slice() {
            first = earlier_of(first, self.again(one));
            self.add(one)?;
        }
        Ok(first)
    }

    /// The least value that a parameter may have.
    fn least(&self, name: &Text) -> Option<u64>
        ensures { result ≡ least (seen_in self.now) name.now }
    {
        let count = values_of(known_by(self.parameters.named(name)));
        let range = match self.ranges.get(name) {
            None => None,
            Some(range) => Some(*range),
        };
        let multiple = match self.multiples.get(name) {
            None => 1,
            Some(multiple) => *multiple,
        };
        fitting(count, range, multiple)
    }

    fn has_value(&self, pre: &Pre) -> bool
        ensures { result ≡ has_value (seen_in self.now) pre.now }
    {
        match pre {
            Pre::Region { .. } => true,
            Pre::Range { name, .. } => self.least(name).is_some(),
            Pre::Align { pointer, .. } => self.least(pointer).is_some(),
        }
    }

    /// The first range or alignment of the parameter that a range or an alignment names.
    fn first_bound(&self, pre: &Pre) -> Option<Span>
        ensures { result ≡ earliest (first_bound (seen_in self.now) pre.now) }
    {
        match pre {
            Pre::Region { .. } => None,
            Pre::Range { name, .. } => self.places.place(name),
            Pre::Align { pointer, .. } => self.places.place(pointer),
        }
    }

    fn valueless(&self, stated: &Stated) -> Option<Span>
        ensures { result ≡ earliest (valueless_places (seen_in self.now) stated.now) }
    {
        if self.has_value(&stated.pre) {
            None
        } else {
            self.first_bound(&stated.pre)
        }
    }

    /// The first range or alignment of a parameter that has no permitted value.
    pub(crate) fn first_valueless(&self, stated: &Seq<Stated>) -> Option<Span>
        ensures { result ≡ first_in (valueless_places (seen_in self.now)) stated.now }
    {
        let mut first = None;
        for one in stated.as_slice() {
            first = earlier_of(first, self.valueless(one));
        }
        first
    }

    fn are_valued(&self, stated: &Seq<Stated>) -> bool
        ensures { result ≡ list_all (λ s. has_value (seen_in self.now) s.pre) stated.now }
    {
        for one in stated.as_slice() {
            if !self.has_value(&one.pre) {
                return false;
            }
        }
        true
    }

    fn least_or_zero(&self, name: &Text) -> u64
        ensures { result ≡ least_or_zero (seen_in self.now) name.now }
    {
        match self.least(name) {
            None => 0,
            Some(least) => least,
        }
    }

    fn least_if_named(&self, name: &Option<Text>) -> u64
        ensures { result ≡ least_if_named (seen_in self.now) name.now }
    {
        match name {
            None => 0,
            Some(name) => self.least_or_zero(name),
        }
    }

    /// Whether a region ends past 2^63 at the least permitted values.
    fn is_far(&self, pre: &Pre) -> bool
        ensures { result ≡ is_far (seen_in self.now) pre.now }
    {
        match pre {
            Pre::Region {
                pointer,
                factor,
                variable,
                constant,
            } => {
                let from = self.least_or_zero(pointer);
                let end = end_of(from, *factor, self.least_if_named(variable), *constant);
                0x8000_0000_0000_0000 < end
            }
            Pre::Range { .. } => false,
            Pre::Align { .. } => false,
        }
    }

    fn far(&self, stated: &Stated) -> Option<Span>
        ensures { result ≡ earliest (far_places (seen_in self.now) stated.now) }
    {
        unless(!self.is_far(&stated.pre), stated.span)
    }

    fn first_far_of(&self, stated: &Seq<Stated>) -> Option<Span>
        ensures { result ≡ first_in (far_places (seen_in self.now)) stated.now }
    {
        let mut first = None;
        for one in stated.as_slice() {
            first = earlier_of(first, self.far(one));
        }
        first
    }

    /// The first region that ends past 2^63, where each parameter has a permitted value.
    #[tactic(auto, using(jz_type_names::proofs::Earliest::joining))]
    pub(crate) fn first_far(&self, stated: &Seq<Stated>) -> Option<Span>
        ensures { result ≡ earliest (far_in (seen_in self.now) stated.now) }
    {
        if self.are_valued(stated) {
            self.first_far_of(stated)
        } else {
            None
        }
    }
}

/// Where a region ends: so many bytes behind its begin.
fn end_of(from: u64, factor: u64, variable: u64, constant: u64) -> u128
    ensures { result ≡ end_of from factor variable constant }
{
    from as u128 + (factor as u128 * variable as u128 + constant as u128)
}

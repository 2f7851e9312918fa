//! From numbers to places.

ghost use Rattle.std.specs.Prelude.{◌≡◌, ◌<◌, Some, IfOk, map};
ghost use Rattle.std.specs.List.{All};
ghost use Rattle.jz_ir.specs.Order.{number_of};
ghost use Rattle.jz_alloc.specs.Fit.{IsSeat};

use jz_data::Seq;
use jz_ir::place_of;
use std::alloc::{AllocError, Global};
use x64_insn::Place;

/// The places of these numbers.
pub fn seats(alloc: Global, numbers: &[Option<u8>]) -> Result<Seq<Place>, AllocError>
    requires { All IsSeat numbers.now }
    ensures { IfOk result (λ places. map (λ p. Some (number_of p)) places ≡ numbers.now) }
{
    let mut places = Seq::new(alloc);
    for number in numbers {
        match *number {
            Some(number) => places.push(place_of(number))?,
            None => unreachable!(),
        }
    }
    Ok(places)
}

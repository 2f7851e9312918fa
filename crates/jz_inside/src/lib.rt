//! Whether an access to memory lies in a region, by what facts say of its address.
#![tactic(auto)]

mod readings;
mod regions;
mod sums;

pub use readings::is_inside;

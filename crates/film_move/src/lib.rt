// Moves a film between the old builder's container and request 1's. Payloads travel as stored, so no key is needed. Rules O.
#![tactic(auto)]

mod back;
mod onward;
mod putting;

pub use back::to_old;
pub use onward::from_old;

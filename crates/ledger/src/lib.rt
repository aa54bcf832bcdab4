//! Sharing, registers, calendar and tables: what a book of accounts needs and that knows nothing of gas.
#![tactic(auto)]

pub mod calendar;
mod largest_remainder_rule;
mod layer;
pub mod range;
pub mod register;
mod rule;
mod running_rule;
pub mod table;

pub use largest_remainder_rule::LargestRemainderRule;
pub use layer::Layer;
pub use rule::{ShareFault, ShareRule, one_outcome};
pub use running_rule::RunningRule;

// What the rows of records and of refusals show: the words, in which each `#` stands for a value, and the values in their order.
#![tactic(auto)]

pub mod fixed;
pub mod refusals;
pub mod texted;

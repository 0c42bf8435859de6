// The checks of a record that is to be written, in the table's order. What they answer stands in specs/.
#![tactic(auto)]

pub mod ids;
mod names;
pub mod record;
pub mod sizes;
mod tables;
mod texts;

// The walk through frames and through the subframes of chapters, with a work buffer, and one frame as a record or by
// what a meter needs of it. What the answers mean stands in specs/.
#![tactic(auto)]

mod choices;
mod inside;
pub mod passing;
pub mod plain;
pub mod record;
pub mod run;
mod steps;
pub mod zeros;

// One frame of a metered tag: its header in the three editions, and what its body holds, by its kind. What the
// answers mean stands in specs/.
#![tactic(auto)]

pub mod body;
pub mod chapter;
mod fields;
pub mod heads;
mod ids;
pub mod parts;
pub mod popularimeter;
pub mod table;
pub mod text;
mod v2;
mod v3;
mod v4;

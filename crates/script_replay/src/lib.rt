// 02: "a night": a script of calls on a card and a chip that start empty, one call to a line.
#![tactic(auto)]

pub mod answer;
pub mod areas;
mod command;
pub mod gather;
pub mod header;
pub mod step;

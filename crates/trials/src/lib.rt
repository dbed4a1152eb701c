// What the programs of the vectors and of the edges share: how many trials went as expected, files, and standard output.
#![tactic(auto)]

pub mod files;
pub mod print;
pub mod tally;

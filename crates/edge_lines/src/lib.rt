// The lines of the edges' files (docs/EDGES.md): words, arguments, what lasts from line to line, and answers held against what a line expects.
#![tactic(auto)]

pub mod answer;
pub mod areas;
pub mod args;
pub mod bench;
pub mod floats;
pub mod place;
pub mod print;
pub mod values;
pub mod words;

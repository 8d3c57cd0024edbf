// The listing: a script of events, a line each, and the text of what the arbiter answers.
#![tactic(auto)]

pub mod forms;
pub mod lines;
pub mod pairs;
pub mod rule;
pub mod run;
pub mod text;

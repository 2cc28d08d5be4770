// The calls of the slow engine for the screen's host program, which is written in C. Rules: docs/SPECIFICATION.md, "The slow engine" and "Numbers given back".
// host/berxundar.h declares them. Each has its engine's own promise, on the tables that the lent slices and count words make; a function of
// many slices stands in a module of its own.
#![tactic(auto)]

mod counts;
mod edit;
mod edit_standing;
mod loading;
mod round;
mod run;

pub use edit::berxundar_slow_edit;
pub use edit_standing::berxundar_slow_edit_standing;
pub use loading::berxundar_slow_load;
pub use round::berxundar_slow_round;
pub use run::berxundar_slow_run_until_calm;

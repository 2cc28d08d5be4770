// The calls of the screen's host program, which is written in C, that change a net: a round, one in an order, an edit of either way, run until
// calm. Rules: docs/SPECIFICATION.md, "Rounds", its last paragraph, and "Numbers given back". host/berxundar.h declares them. Each has its engine's
// own promise, on the tables that the lent slices and count words make; a function of many slices stands in a module of its own.
#![tactic(auto)]

mod edit;
mod edit_standing;
mod round;
mod round_ordered;
mod run;

pub use edit::berxundar_edit;
pub use edit_standing::berxundar_edit_standing;
pub use round::berxundar_round;
pub use round_ordered::berxundar_round_ordered;
pub use run::berxundar_run_until_calm;

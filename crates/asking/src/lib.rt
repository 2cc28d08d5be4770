// The questions of the screen's host program, which is written in C. Rules: docs/SPECIFICATION.md, "Rounds", its last paragraph, and
// "Numbers given back". host/berxundar.h declares them. Each has its engine's own promise, and the call that only checks the number of the
// check, on the tables that the lent slices and count words make; a function of many slices stands in a module of its own.
#![tactic(auto)]

mod answers;
mod calm;
mod index_of;
mod is_net;
mod port;
mod satisfied;
mod sources;
mod targets;

pub use calm::berxundar_calm;
pub use index_of::berxundar_index;
pub use is_net::berxundar_check;
pub use port::berxundar_value;
pub use satisfied::berxundar_satisfied;
pub use sources::berxundar_sources;
pub use targets::berxundar_targets;

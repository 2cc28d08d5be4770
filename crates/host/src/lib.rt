// The calls of the screen's host program, which is written in C, on a file and on one component: judging, loading, looking at a box,
// mending, evaluating. Those that change a net are crate changing's, the questions about a net crate asking's, the slow engine's calls
// crate slowly's. Rules: docs/SPECIFICATION.md, "Rounds", its last paragraph, "Numbers given back", "Looking at a box" and "Mending a
// drawing". host/berxundar.h declares them. Each has its engine's own promise, on the tables that the lent slices and count words make.
#![tactic(auto)]

mod evaluate;
mod judge;
mod loading;
mod looking;
mod mending;

pub use evaluate::berxundar_evaluate;
pub use judge::{berxundar_judge, berxundar_judge_pair};
pub use loading::berxundar_load;
pub use looking::berxundar_look;
pub use mending::berxundar_mend;

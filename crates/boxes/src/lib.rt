// The boxes of a drawing: the component that a path of ids names, what is behind its ports, and whether tables match the drawing. Rule:
// docs/SPECIFICATION.md, "Looking at a box". Source: flatten.rs, `get_status`.
#![tactic(auto)]

mod behind;
mod matching;
mod path;

pub use behind::{is_dangling, port_shown};
pub use matching::is_matched;
pub use path::place_of;

// The table of 32 sessions. What its calls promise: specs/Promises.antt. The tender's third condition, over every list of
// calls: specs/Demand3.antt, proved in proofs/Demand3.antt. Its six queues and what they are to the layout before: specs/Order3.antt.
#![tactic(auto)]

mod calls;
mod queue;
mod row;
mod table;

pub use calls::{Cleared, Held, Looked, Stored, Withdrawn};
pub use queue::Queue;
pub use row::{Row, Weighed};
pub use table::Table;

//! The laws of the machine, which hold of every state that is opened, stepped or replayed.

pub use machine_law::laws::{
    nothing_is_lost, one_step_keeps_the_law, quiet_flow_is_greatest, runs_keep_the_law,
};

//! The reading of a record file as one machine of phases, and its laws.
#![tactic(auto)]

mod reading;

pub use reading::{
    cuts_dont_matter, file_is_judged, file_state_tells, front_is_judged, front_is_refused,
    machine_is_stream, parts_alone_are_read, parts_are_read, state_tells,
};

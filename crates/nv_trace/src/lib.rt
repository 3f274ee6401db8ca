//! Scripts of calls whose events are told: a line for each start and each step before the answer, as words or as JSON.
//!
//! What stands in these lines is defined in `nv_script`, whose player plays a script in any form: in `Trace.antt`, and as JSON in
//! `Json.antt` and `JsonWorld.antt` of its `specs`.
#![tactic(auto)]

mod act;
mod events;
mod json;
mod json_act;
mod json_book;
mod json_log;
mod json_world;
mod script;
mod tellers;
mod traced_words;

pub use script::{
    trace_and_leave, trace_counted_and_leave, trace_json_and_leave, trace_json_counted_and_leave,
};

//! A world is a history, the shards along it, and the queries on its prefixes; an event is one atomic step of it.
//! Whatever events follow one another, each query that ends has answered exactly the scan of its own prefix: the laws say it.
#![tactic(auto)]

mod laws;
mod refused;
mod told;

pub use laws::{
    a_build_is_overtaken, each_event_keeps_the_rules, every_list_of_events_answers_the_scan,
    no_query_is_too_old, reads_are_bounded,
};
pub use refused::Refused;
pub use told::Told;

//! The cases of a turn of the repartition worker, over a desk that is alone.
#![tactic(auto)]

#[cfg(test)]
mod turns;

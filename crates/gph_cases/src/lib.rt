//! A case is what goes in and what has to come out, by the rules of the protocol. The cases here are run through the top call,
//! the cutter of lines and the reader of requests; no other crate stands on this one.
#![tactic(auto)]

#[cfg(test)]
mod faults;
#[cfg(test)]
mod lines;
#[cfg(test)]
mod listens;
#[cfg(test)]
mod loads;
#[cfg(test)]
mod protocol;
#[cfg(test)]
mod replies;
#[cfg(test)]
mod sessions;
#[cfg(test)]
mod trial;
#[cfg(test)]
mod words;

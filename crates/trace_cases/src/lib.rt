//! A case is a line of a trace with what it asks, an answer with its line, or a whole trace with its answers, by the rules of the protocol;
//! no other crate stands on this one.
#![tactic(auto)]

#[cfg(test)]
mod answers;
#[cfg(test)]
mod endings;
#[cfg(test)]
mod lines;
#[cfg(test)]
mod orders;
#[cfg(test)]
mod rules;
#[cfg(test)]
mod served;
#[cfg(test)]
mod trial;

//! The cases of the search for a layout: worked rows, whose costs are counted by hand.
//! The one call that may find no memory is run with ample memory, and its answer is compared.
#![tactic(auto)]

#[cfg(test)]
mod searches;

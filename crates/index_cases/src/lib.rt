//! The cases of the codes and of the parts that one shard's search stands on.
//! Each table is compared with worked examples or with a plain program that computes the definition.
#![tactic(auto)]

#[cfg(test)]
mod balls;
#[cfg(test)]
mod codes;
#[cfg(test)]
mod counts;
#[cfg(test)]
mod entries;
#[cfg(test)]
mod gathers;
#[cfg(test)]
mod layouts;
#[cfg(test)]
mod meters;
#[cfg(test)]
mod plain;
#[cfg(test)]
mod range_tasks;
#[cfg(test)]
mod rows;
#[cfg(test)]
mod scan;
#[cfg(test)]
mod sources;
#[cfg(test)]
mod thresholds;
#[cfg(test)]
mod versions;

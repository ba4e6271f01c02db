//! The cases of sessions at one board: what each replies and reports, and what one sees of what another did.
#![tactic(auto)]

#[cfg(test)]
mod meetings;
#[cfg(test)]
mod moves;
#[cfg(test)]
mod rivals;
#[cfg(test)]
mod served;
#[cfg(test)]
mod sessions;
#[cfg(test)]
mod watched;

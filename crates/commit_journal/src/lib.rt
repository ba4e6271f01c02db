//! A journal is a history of entries, with the rows that they leave and the fronts that are live.
//! It stays legal, each operation is decided on its rows, and a front lists every live front below it.
#![tactic(auto)]

mod chunks;
mod decided;
mod entries;
mod front;
mod journal;
mod laws;
mod older;

pub use decided::Decided;
pub use front::Front;
pub use journal::Journal;
pub use laws::live_fronts_come_and_go;

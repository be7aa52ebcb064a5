//! The stage of a game of a crew: its host and units, its threads, how they wait for one another, and what is told of it once
//! it is closed. The games of `bench/thread_games` are played on it as well.

pub mod changes;
pub mod closed;
pub mod hands;
pub mod host;
pub mod threads;
pub mod units;
pub mod waiting;

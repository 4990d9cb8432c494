//! The outside as traits: a folder, a console and a sink for diagnostics, with objects in memory and real ones. Invariant: each call says what it did to what the object holds, and each failure is counted. Used by `hp_driver`, `hp_main`, `hp_games`, `hp_rows`.
//!
//! Each says what a call does to what it holds, where it tells that, and counts its faults, so that a caller
//! which answers that a call failed can be held to it.
#![tactic(auto)]

mod calm_console;
mod calm_folder;
mod calm_sink;
mod console;
mod counts;
mod entries;
mod error;
mod folder;
mod mem_console;
mod mem_folder;
mod mem_sink;
mod real_console;
mod real_folder;
mod real_sink;
mod sink;
mod tries;

pub use calm_console::CalmConsole;
pub use calm_folder::CalmFolder;
pub use calm_sink::CalmSink;
pub use console::{Console, Event};
pub use error::{Failed, ReadErr, WriteErr};
pub use folder::Folder;
pub use mem_console::MemConsole;
pub use mem_folder::MemFolder;
pub use mem_sink::MemSink;
pub use real_console::RealConsole;
pub use real_folder::RealFolder;
pub use real_sink::RealSink;
pub use sink::Sink;
pub use tries::{TRIES, read_once, read_whole, write_once, write_whole};

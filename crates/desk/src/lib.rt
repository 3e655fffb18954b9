// The desk: its conversation with the store, command by command, and the functions for C.
#![tactic(auto)]

mod cutting;
pub mod exports;
mod showing;
mod talking;

pub use talking::{Desk, PAGES, ROWS, SHEET, Said, answer, closed_desk};

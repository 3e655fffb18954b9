// What the calls on an open sheet have in common: a call as a value, the lines of the refusals that several test, and the append.
// What each call answers and leaves is in specs/. The calls take the sheet, fates, rows and state as the last call left them, trust
// none of it, and answer with the state that the next one gets (docs/STORE.md, The calls). Their code is in the crates above:
// `writing` (begin and write), `reading` (read), `deciding` (commit, abort and test) and `making` (any of them).
// Sheet, fates, rows and state stay parameters of their own: what a call doesn't write it is lent by `&` (sheet and fates by read, test,
// rebuild and a move), and a struct of `&mut` would ask more of its callers.
#![tactic(auto)]

mod appending;
mod asking;
mod refusing;

pub use appending::append;
pub use asking::Call;
pub use refusing::{action_line, known_fate, room_line};

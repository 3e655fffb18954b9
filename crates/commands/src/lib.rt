// The command language (docs/STORE.md): lines to commands, and replies to lines.
#![tactic(auto)]

mod parsing;
mod printing;

pub use parsing::{Command, LONGEST, parse};
pub use printing::{ROOM, Reply, print};

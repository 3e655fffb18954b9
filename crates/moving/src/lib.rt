// The move to a fresh sheet: every file's current version is carried to a blank one, under one action that is committed last.
#![tactic(auto)]

mod carrying;
mod checking;
mod moves;
mod warming;

pub use moves::move_to;

//! The command line of `gfscell`. `specs/Program.antt` has the command as a value, and `specs/Asking.antt` what words ask for
//! under it, which is what `command::parse` answers.
#![tactic(auto)]

pub mod command;
pub mod narrowed;

//! The session behind the console: its state, and what each command does to it.
//!
//! `specs/State.antt` has the state, and `specs/Views.antt` what is asked of it. `specs/Order.antt`
//! says what a command is refused by before its own conditions, whatever the command is;
//! `specs/Graph.antt` what each edit does and answers, row by row, and `specs/Look.antt` what each
//! look tells; `specs/Files.antt` what loading and saving do; `specs/Query.antt` which answers are
//! right; and `specs/Step.antt` the one relation that a command, its reply and the states before
//! and after it stand in.
#![tactic(auto)]

mod files;
mod graph;
mod keeping;
mod look;
mod names;
mod order;
mod paths;
mod queries;
mod session;

pub use session::Session;

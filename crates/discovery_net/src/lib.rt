//! A network whose connections open only where both edges hold a Hello adjacency (RFC 5036 sections 2.4.2 and 2.5): it does one line of
//! a script after another. Ticks stand for seconds.
//!
//! `specs/Lines.antt` says what each line does, by what the edges have said, heard and counted; `specs/Acts.antt` what comes of it.
#![tactic(auto)]

mod discovery_net;
mod run;
mod said_hello;

pub use discovery_net::DiscoveryNet;
pub use run::{DiscoveryRun, run_script};
pub use said_hello::SaidHello;

// Ports: input ports take their buffers, and connections copy outputs to buffers. Ports and connections are walked once.

#![tactic(auto)]

mod connections;
mod ports;

pub use connections::send;
pub use ports::freeze;

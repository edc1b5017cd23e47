// What a thread's rules do by its connections, written into a lent slice: the ports that DISPATCH and START take, and what DEADLINE sends.

#![tactic(auto)]

mod ports;
mod sends;

pub use ports::{put_dispatch_ports, put_start_ports};
pub use sends::put_sends;

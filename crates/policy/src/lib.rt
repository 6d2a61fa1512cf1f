// Displacement policies: which number a displacement of one byte stands for, and which byte stands for a number.
#![tactic(auto)]

mod byte;
mod chooser;
mod plain;
mod policy;
mod port;
mod scale;
mod scaled;
mod shift;

pub use chooser::Chooser;
pub use plain::Plain;
pub use policy::Policy;
pub use port::{PortPolicy, port_policy, port_shorten, port_spread};
pub use scaled::Scaled;

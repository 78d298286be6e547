//! What one worker of a parallel search has, does with pieces and hands over, and the results of all workers, joined
//! (specs/Holdings.antt, specs/Joining.antt): each piece was opened, closed, handed back or left in a deque, just once.
#![tactic(auto)]

mod deques;
mod done;
mod holdings;
mod joined;
mod keeping;
mod naming;
mod own;
mod parting;
mod pass_at;
mod pool_desk;
mod step;
mod taking;
mod working;

pub use done::Done;
pub use holdings::Holdings;
pub use joined::{Joined, close_up};
pub use naming::Naming;
pub use own::Own;
pub use pass_at::PassAt;
pub use pool_desk::PoolDesk;
pub use step::{Step, Tried};

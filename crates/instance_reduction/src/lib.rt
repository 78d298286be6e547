//! Set cover instances made smaller: places that another outdoes and cells that another makes needless are dropped, by
//! column and row dominance. All of it proposes, and nothing is promised of it but that it ends and stays in bounds:
//! judges accept or refuse.
#![tactic(auto)]

mod cyclic_core;
mod kernel_places;
mod node_below;
mod node_places;
mod node_rows;
mod numberings;
mod reduced_instance;
mod reduced_node;
mod region_instance;
mod rows_left;
mod stale;
mod stand_ins;

pub use cyclic_core::CyclicCore;
pub use kernel_places::KernelPlaces;
pub use node_places::NodePlaces;
pub use numberings::{InInstance, InRegion};
pub use reduced_instance::{ReducedInstance, undominated_places};
pub use reduced_node::ReducedNode;
pub use region_instance::RegionInstance;
pub use rows_left::RowsLeft;

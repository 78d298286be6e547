//! NBT bytes read from left to right, and as a tree of tags (Minecraft Wiki, "NBT format").
//!
//! [`read_root`] gives the value of the root that the bytes begin with, or the first fault in them,
//! with its place. It returns on all bytes: lists and compounds nest at most 512 deep, and no room
//! is made for what the bytes only claim to hold.
//!
//! ```rust
//! let root = read_root(rt.alloc(), &bytes)?;
//! if let Some(Tag::Int(state)) = root.field(b"state") {
//!     println!(rt; "{state}")?;
//! }
//! ```
//!
//! A [`Reader`] reads the pieces that values are made of, or passes over a value, which it judges and doesn't keep. It
//! takes no memory for that.
#![tactic(auto)]

mod fault;
mod kind;
pub mod laws;
mod leaf;
mod plain_entries;
mod reader;
mod root;
mod skip;
mod tag;
mod tree;

pub use fault::NbtFault;
pub use kind::{Kind, LeafKind};
pub use reader::Reader;
pub use root::read_root;
pub use tag::{Entries, Tag, Tags};
pub use tree::DEEPEST;

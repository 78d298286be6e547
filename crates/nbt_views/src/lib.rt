//! Values of NBT bytes, seen where they lie (Minecraft Wiki, "NBT format").
//!
//! [`root_fields`] judges bytes as `nbt_core::read_root` does, and gives fields of the root in the same walk. It takes
//! no memory: each [`View`] borrows the bytes, and reads the parts of its value where they are asked for.
//!
//! ```rust
//! let (_, _, _, blocks) = root_fields(&bytes, b"size", b"palette", b"palettes", b"blocks")?;
//! if let Some(items) = blocks.and_then(|blocks| blocks.items()) {
//!     println!(rt; "{} blocks", items.len())?;
//! }
//! ```
#![tactic(auto)]

mod entries_view;
mod fields;
mod items_view;
mod judge;
mod named_entries;
mod view;

pub use entries_view::EntriesView;
pub use fields::{FourFields, TwoFields};
pub use items_view::ItemsView;
pub use judge::root_fields;
pub use view::View;

//! A writer of structure files for tests: a box, its palette, and what fills it.

use std::alloc::{AllocError, Global};

/// A block state of the palette.
#[derive(Clone, Copy)]
pub struct Block<'a> {
    pub name: &'a str,
    pub props: &'a [(&'a str, &'a str)],
}

/// What stands from one corner to the other, both included: an index into the palette, or no entry.
#[derive(Clone, Copy)]
pub struct Fill(pub [i32; 3], pub [i32; 3], pub Option<i32>);

/// An entry of the blocks.
#[derive(Clone, Copy)]
pub struct Entry {
    pub at: [i32; 3],
    pub state: i32,
}

/// A structure: of two fills the later one counts.
#[derive(Clone, Copy)]
pub struct Structure<'a> {
    pub size: [i32; 3],
    pub palette: &'a [Block<'a>],
    pub fills: &'a [Fill],
    /// Entries behind those of the box, which stand in the order of the cells.
    pub more: &'a [Entry],
}

impl<'a> Block<'a> {
    /// The state of this name without properties.
    pub const fn plain(name: &'a str) -> Block<'a> {
        Block { name, props: &[] }
    }
}

impl Fill {
    fn covers(&self, at: [i32; 3]) -> bool {
        let [x, y, z] = at;
        let Fill(from, to, _) = *self;
        let [from_x, from_y, from_z] = from;
        let [to_x, to_y, to_z] = to;
        from_x <= x && x <= to_x && from_y <= y && y <= to_y && from_z <= z && z <= to_z
    }
}

impl Structure<'_> {
    /// The bytes of the file.
    pub fn bytes(&self, alloc: Global) -> Result<Vec<u8>, AllocError> {
        let mut out = Vec::new(alloc);
        out.extend_from_slice(&[10, 0, 0])?;
        put_sides(&mut out, "size", self.size)?;
        put_tag(&mut out, 9, "palette")?;
        put_list(&mut out, self.palette.len())?;
        for block in self.palette {
            put_block(&mut out, block)?;
        }
        let entries = self.entries(alloc)?;
        put_tag(&mut out, 9, "blocks")?;
        put_list(&mut out, entries.len())?;
        for entry in &entries {
            put_sides(&mut out, "pos", entry.at)?;
            put_tag(&mut out, 3, "state")?;
            out.extend_from_slice(&entry.state.to_be_bytes())?;
            out.push(0)?;
        }
        out.push(0)?;
        Ok(out)
    }

    fn entries(&self, alloc: Global) -> Result<Vec<Entry>, AllocError> {
        let [width, height, depth] = self.size;
        let mut entries = Vec::new(alloc);
        for y in 0..height {
            for z in 0..depth {
                for x in 0..width {
                    if let Some(state) = self.state_at([x, y, z]) {
                        entries.push(Entry {
                            at: [x, y, z],
                            state,
                        })?;
                    }
                }
            }
        }
        for entry in self.more {
            entries.push(*entry)?;
        }
        Ok(entries)
    }

    fn state_at(&self, at: [i32; 3]) -> Option<i32> {
        let mut state = None;
        for fill in self.fills {
            if fill.covers(at) {
                state = fill.2;
            }
        }
        state
    }
}

fn put_text(out: &mut Vec<u8>, text: &str) -> Result<(), AllocError> {
    out.extend_from_slice(&u16::try_from(text.len()).unwrap_or(0).to_be_bytes())?;
    out.extend_from_slice(text.as_bytes())
}

fn put_tag(out: &mut Vec<u8>, id: u8, name: &str) -> Result<(), AllocError> {
    out.push(id)?;
    put_text(out, name)
}

/// The head of a list of compounds; an empty list has the id 0.
fn put_list(out: &mut Vec<u8>, count: usize) -> Result<(), AllocError> {
    out.push(if count == 0 { 0 } else { 10 })?;
    out.extend_from_slice(&u32::try_from(count).unwrap_or(0).to_be_bytes())
}

fn put_sides(out: &mut Vec<u8>, name: &str, at: [i32; 3]) -> Result<(), AllocError> {
    put_tag(out, 9, name)?;
    out.extend_from_slice(&[3, 0, 0, 0, 3])?;
    for side in at {
        out.extend_from_slice(&side.to_be_bytes())?;
    }
    Ok(())
}

fn put_block(out: &mut Vec<u8>, block: &Block<'_>) -> Result<(), AllocError> {
    put_tag(out, 8, "Name")?;
    put_text(out, block.name)?;
    if !block.props.is_empty() {
        put_tag(out, 10, "Properties")?;
        for (name, value) in block.props {
            put_tag(out, 8, name)?;
            put_text(out, value)?;
        }
        out.push(0)?;
    }
    out.push(0)?;
    Ok(())
}

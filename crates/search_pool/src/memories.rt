//! What is remembered of opened pieces, until their last kid is worked on. Nothing is promised of it: it says only what
//! the work on a kid begins with.
use proof_tree::Name;
use std::alloc::{AllocError, Global};
use std::sync::{Arc, Mutex, Wait};

/// What is remembered of the piece of this name, for those of its kids that are yet to come.
#[derive(Drop)]
struct Remembered<M> {
    name: Vec<u32>,
    memory: Arc<M>,
    kids: usize,
}

/// The memories of opened pieces, which all workers see: the newest last.
#[derive(Drop)]
pub(crate) struct Memories<M> {
    alloc: Global,
    entries: Mutex<Vec<Remembered<M>>>,
}

impl<M: Drop> Memories<M> {
    /// None yet.
    pub(crate) fn new(alloc: Global) -> Memories<M> {
        Memories {
            alloc,
            entries: Mutex::new(Vec::new(alloc)),
        }
    }

    /// Keeps what is remembered of the piece of this name, for its `kids` kids.
    pub(crate) fn keep<R: Wait>(
        &self,
        rt: &R,
        name: Vec<u32>,
        memory: M,
        kids: usize,
    ) -> Result<(), AllocError> {
        if kids == 0 {
            return Ok(());
        }
        let entry = Remembered {
            name,
            memory: Arc::new(self.alloc, memory)?,
            kids,
        };
        self.entries.lock(rt).push(entry)?;
        Ok(())
    }

    /// What is remembered of the piece above the one of this name, if anything is. Each kid asks once.
    pub(crate) fn above<R: Wait>(
        &self,
        rt: &R,
        name: &[u32],
    ) -> Result<Option<Arc<M>>, AllocError> {
        let Some((_, parent)) = name.split_last() else {
            return Ok(None);
        };
        let mut entries = self.entries.lock(rt);
        let named = entries
            .iter()
            .rposition(|entry| entry.name.as_slice() == parent);
        let Some(index) = named else {
            return Ok(None);
        };
        let Some(entry) = entries.get_mut(index) else {
            return Ok(None);
        };
        let memory = Arc::try_clone(&entry.memory)?;
        entry.kids = entry.kids.saturating_sub(1);
        let is_last = entry.kids == 0;
        if is_last && index < entries.len() {
            entries.remove(index);
        }
        Ok(Some(memory))
    }
}

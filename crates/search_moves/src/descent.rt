//! The descent of a search to the node that it works on: where it began, how far it came, and how deep the node is.
//! Depth is counted in branches and picks.

/// Where a search began.
#[derive(Clone, Copy)]
enum Began {
    /// At a node of its own.
    AtNode,
    /// Below a node of a longer search, of which it is a part.
    AsPart,
}

/// How far a search came. `base` is how many branches and picks stand above a node of depth 0.
#[derive(Clone, Copy)]
enum Reached {
    /// No node of a part yet. The first one has depth 1.
    NoneOfPart,
    /// A node that was recalled. The next one is right below it, and has depth 1.
    Recalled,
    /// The first node of a part.
    FirstOfPart { base: usize },
    /// Any other node, or none yet of a search that began at a node of its own.
    Within { base: usize },
}

impl Reached {
    /// How many branches and picks stand above a node of depth 0, unless the next node tells it.
    fn base(self) -> Option<usize> {
        match self {
            Reached::NoneOfPart => None,
            Reached::Recalled => None,
            Reached::FirstOfPart { base } => Some(base),
            Reached::Within { base } => Some(base),
        }
    }
}

/// The way of a search from where it began to the node that it works on.
#[derive(Clone, Copy)]
pub(crate) struct Descent {
    began: Began,
    reached: Reached,
    /// How deep the node is that was worked on or recalled last.
    depth: usize,
}

impl Descent {
    /// A search that begins at a node with this many branches and picks above it.
    pub(crate) fn at_node(above: usize) -> Descent {
        Descent {
            began: Began::AtNode,
            reached: Reached::Within { base: above },
            depth: 0,
        }
    }

    /// A part of a longer search, below a node of it.
    pub(crate) fn as_part() -> Descent {
        Descent {
            began: Began::AsPart,
            reached: Reached::NoneOfPart,
            depth: 0,
        }
    }

    /// The next node is right below one that is recalled.
    pub(crate) fn recall(&mut self) {
        self.reached = Reached::Recalled;
        self.depth = 0;
    }

    /// The node that is worked on next has this many branches and picks above it.
    pub(crate) fn enter(&mut self, above: usize) {
        let base = self.reached.base().unwrap_or(above.saturating_sub(1));
        self.reached = match self.reached {
            Reached::NoneOfPart => Reached::FirstOfPart { base },
            _ => Reached::Within { base },
        };
        self.depth = above.saturating_sub(base);
    }

    /// How deep the node is that was worked on or recalled last.
    pub(crate) fn depth(&self) -> usize {
        self.depth
    }

    /// Whether the search is a part of a longer one.
    pub(crate) fn is_part(&self) -> bool {
        matches!(self.began, Began::AsPart)
    }

    /// Whether the node is the first of a part, or the one where the search began.
    pub(crate) fn is_at_first(&self) -> bool {
        self.depth == 0 || matches!(self.reached, Reached::FirstOfPart { .. })
    }
}

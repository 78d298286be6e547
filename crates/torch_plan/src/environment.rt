//! What a command line runs in.

use crate::resources::Resources;

/// What a command line runs in: its resources, and the system that opens its files.
#[derive(Drop)]
pub(crate) struct Environment<'e, X, S, O> {
    pub(crate) resources: &'e Resources<'e, X, O>,
    pub(crate) system: &'e S,
}

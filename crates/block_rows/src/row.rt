use cave_base::{Class, Sequence};

/// A row of the table of blocks: a whole name, prefix included, or `*`; the properties that it asks for, each
/// with its value; and the class of such a block. Names and values are compared by their bytes.
#[derive(Debug, Drop)]
pub struct Row {
    pub name: Sequence<u8>,
    pub when: Sequence<(Sequence<u8>, Sequence<u8>)>,
    pub class: Class,
}

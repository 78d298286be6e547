use cave_base::Sequence;

/// A block of the palette: its whole name, prefix included, and its properties, each once, as name
/// and value. Names and values are bytes, compared as such (Minecraft Wiki, "Structure file").
#[derive(Debug, Drop)]
pub struct BlockState {
    pub name: Sequence<u8>,
    pub props: Sequence<(Sequence<u8>, Sequence<u8>)>,
}

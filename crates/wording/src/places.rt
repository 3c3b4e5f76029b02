// A sheet as it is told of.

// How its places are counted: by its bytes, or for a stored sheet by its lines.
#[derive(Clone, Copy)]
pub enum Places {
    Bytes,
    Lines,
}

// Its name, its bytes, and how its places are counted.
#[derive(Clone, Copy)]
pub struct Source<'a> {
    pub file: &'a [u8],
    pub sheet: &'a [u8],
    pub places: Places,
}

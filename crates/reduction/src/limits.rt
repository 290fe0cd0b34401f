// How much memory a reduction may use.

#[derive(Clone, Copy, PartialEq, Eq, Debug)]
pub struct Limits {
    // the bytes of a file
    pub file: usize,
    // the places of its map and of its outputs
    pub places: usize,
    pub outputs: usize,
    // the bytes of the written text
    pub text: usize,
}

/// A place in a file: the line, and the byte in that line. Both count from 1, and both stand still
/// at 4,294,967,295.
#[derive(Clone, Copy, Debug, PartialEq, Eq)]
pub struct Place {
    pub line: u32,
    pub byte: u32,
}

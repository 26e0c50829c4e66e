// An image that is to be written.
use tm_base::{Bytes, Text};

/// The file of an image, and the line that is printed for it.
#[derive(Drop)]
pub struct Made {
    pub file: Bytes,
    pub line: Text,
}

use crate::elf::ElfFault;
use crate::inputs::InputFault;

/// Why a file isn't opened as an image.
#[derive(Drop)]
pub enum ImageFault {
    /// The file hasn't the form of an image; want of memory doesn't stand here.
    Elf(ElfFault),
    /// A text of the file's plan is refused.
    Inputs(InputFault),
    /// What is built of the plan is another file: the first place at which the two differ, or the shorter length.
    Differs { offset: u64 },
    NoMemory,
}

// Why a command stops before it is done.
use tm_refusals::Role;
use tm_top_line::AnyFault;

/// An input was refused, the outside failed at the file of a role, or there was no memory.
#[derive(Drop)]
pub enum Stop {
    Refused(Role, AnyFault),
    Failed(Role),
    NoMemory,
}

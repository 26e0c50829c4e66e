//! Tests of cells: the program by which harts add to cells, and what each run of it does.
#![tactic(auto)]

mod checks;
mod hart;
mod program;

pub use checks::cell_addr;
pub use program::{CellProgram, cell_program};
pub use tm_cells_plan::{CellPlan, cell_sums};

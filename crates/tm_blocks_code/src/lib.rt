//! Parts of support code as words of labelled code: the instructions, and blocks that set, load and save registers.
//! Their words and laws are those of `tm_blocks_base`.
#![tactic(auto)]

mod blocks;
mod instrs;
mod put;

pub use blocks::{put_constant, put_load_registers, put_save_registers};
pub use instrs::{
    add, addi, and, beq, bltu_back, bne, bne_back, fence, go_to, jump, ld, sd, slli, subi, xor,
};
pub use put::put_all;

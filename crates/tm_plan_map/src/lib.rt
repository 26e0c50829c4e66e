//! The map of the guest's memory, windows, what ops touch, and the slots of a test before its streams are drawn.
#![tactic(auto)]

mod addresses;
mod admitted;
mod ops;
mod windows;

pub use addresses::{
    EXITS_OFFSET, FLAG_STEP, FLAGS_ADDRESS, HART_TABLE_BYTES, PASSES_OFFSET, PRIVATE_ADDRESS,
    PRIVATE_BYTES, SAVE_STEP, SAVES_OFFSET, TABLES_ADDRESS, TEXT_ADDRESS, VERDICTS_ADDRESS,
    WINDOWS_ADDRESS, WINDOWS_BYTES, WINDOWS_DWORDS, WINDOWS_TABLE_BYTES, flag_addr, private_base,
    save_addr, table_addr, verdict_addr, window_base,
};
pub use admitted::{Admitted, AdmittedCase, Slot, SlotList};
pub use ops::{
    is_access, is_barred, is_branch, is_jump, is_product, load_width, slot_addr, store_width,
};
pub use windows::{Kind2, Window};

use super::*;
use std::test::Fail;

// Memory is there, so a body that always answers that there is none doesn't pass.
#[test]
fn bytes_stand_lowest_first(rt: HostRuntime) -> Result<(), Fail> {
    let mut ram = Ram::new(rt.alloc(), 0x8000_0000, 16)?;
    ram.store(0x8000_0008, 4, 0x1122_3344_5566_7788);
    assert_eq!(rt; ram.load(0x8000_0008, 8), 0x5566_7788);
    assert_eq!(rt; ram.load(0x8000_000a, 2), 0x5566);
    assert_eq!(rt; ram.load(0x8000_0000, 8), 0);
    ram.store(0x8000_000f, 1, 0xff);
    assert_eq!(rt; ram.load(0x8000_0008, 8), 0xff00_0000_5566_7788);
    Ok(())
}

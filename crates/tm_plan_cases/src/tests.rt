use super::*;
use std::alloc::Global;
use std::test::Fail;
use tm_base::{Bytes, List, Words};

fn one_case(alloc: Global) -> Result<Cases, Fail> {
    let mut regs = [0u64; 32];
    regs[1] = 0x0807_0605_0403_0201;
    regs[31] = private_base(0);
    let mut words = Words::new(alloc);
    words.push(0x0012_8313)?;
    let mut streams = List::new(alloc);
    streams.push(Stream { words, regs })?;
    let mut first = List::new(alloc);
    for q in 0..768u64 {
        first.push(q)?;
    }
    let mut cases = List::new(alloc);
    cases.push(Case {
        name: Bytes::new(alloc),
        streams,
        first,
    })?;
    let mut windows = List::new(alloc);
    windows.push(Window {
        number: 0,
        kind: Kind2::True,
        lines: 1,
    })?;
    Ok(Cases {
        name: Bytes::new(alloc),
        harts: 1,
        line: 64,
        passes: 2,
        windows,
        cases,
    })
}

fn one_mask(alloc: Global) -> Result<Masks, Fail> {
    let mut regs = Words::new(alloc);
    regs.push(0x7FFF_FFFE)?;
    let mut bytes = Bytes::new(alloc);
    for b in 0..6144u32 {
        bytes.push(if b < 64 { 0xFF } else { 0 })?;
    }
    let mut cases = List::new(alloc);
    cases.push(CaseMask { regs, bytes })?;
    Ok(Masks { cases })
}

#[test]
fn a_table_has_its_parts_in_order(rt: HostRuntime) -> Result<(), Fail> {
    let alloc = rt.alloc();
    let cases = one_case(alloc)?;
    let masks = one_mask(alloc)?;
    let all = tables(alloc, &cases, &masks)?;
    let bytes = all.as_slice();
    assert_eq!(rt; bytes.len(), 256 + 6144 + 6144);
    assert_eq!(rt;
        bytes.get(..8),
        Some(b"\x01\x02\x03\x04\x05\x06\x07\x08".as_slice())
    );
    assert_eq!(rt;
        bytes.get(240..256),
        Some(b"\0\0\xC1\x80\0\0\0\0\xFE\xFF\xFF\x7F\0\0\0\0".as_slice())
    );
    assert_eq!(rt;
        bytes.get(256 + 6136..256 + 6148),
        Some(b"\xFF\x02\0\0\0\0\0\0\xFF\xFF\xFF\xFF".as_slice())
    );
    Ok(())
}

// Real files, in the folder where the program runs.
use crate::shown::{show, show_done, show_text};
use std::alloc::Global;
use std::fs::{self, Permissions};
use std::io::{self, ErrorKind};
use std::os::unix::fs::{PermissionsExt, symlink};
use tm_base::{Bytes, NoMemory};
use tm_desk::{Desk, DeskError, RealDesk};

const SHORT_FILE: &str = "short";

const LONG_FILE: &str = "long";

const FOLDER: &str = "folder";

const OLD_FILE: &str = "folder/old";

const LINK: &str = "folder/link";

/// How many bytes the long file has.
const LONG: u64 = 100_000;

/// Prints what a read answered.
fn show_read(rt: &HostRuntime, what: &str, answer: Result<Bytes, DeskError>) -> io::Result<()> {
    match answer {
        Ok(bytes) => show_text(rt, what, bytes.as_slice()),
        Err(error) => show(rt, what, error),
    }
}

/// A file is written twice, the second time shorter, and read. What isn't there is read and written in vain.
pub fn short_file(rt: &HostRuntime) -> io::Result<()> {
    let mut desk = RealDesk::new(rt.alloc(), rt.clone()?);
    println!(rt; "a short file")?;
    show_done(
        rt,
        "write of 15 bytes",
        desk.write(SHORT_FILE, b"some more bytes"),
    )?;
    show_done(
        rt,
        "write of 10 bytes",
        desk.write(SHORT_FILE, b"some bytes"),
    )?;
    show_read(rt, "read of up to 10 bytes", desk.read(SHORT_FILE, 10))?;
    show_read(rt, "read of any length", desk.read(SHORT_FILE, u64::MAX))?;
    show_read(rt, "read of up to 9 bytes", desk.read(SHORT_FILE, 9))?;
    show(rt, "faults", desk.faults())?;
    show_read(rt, "read of no file", desk.read("none", 9))?;
    show_done(rt, "write into no folder", desk.write("none/x", b""))?;
    show(rt, "faults", desk.faults())?;
    fs::remove_file(rt, SHORT_FILE)
}

/// The bytes of the long file. They come again after 251 of them, so that no two blocks of it are alike.
fn long_text(alloc: Global) -> Result<Bytes, NoMemory> {
    let mut bytes = Bytes::new(alloc);
    for place in 0..LONG {
        bytes.push((place % 251) as u8)?;
    }
    Ok(bytes)
}

/// What a read found, where these bytes are wanted.
fn found(answer: Result<Bytes, DeskError>, wanted: &[u8]) -> &'static str {
    match answer {
        Ok(bytes) => {
            if bytes.as_slice() == wanted {
                "the same"
            } else {
                "others"
            }
        }
        Err(_) => "an error",
    }
}

/// A file of many blocks is written and read whole.
pub fn long_file(rt: &HostRuntime) -> io::Result<()> {
    let Ok(bytes) = long_text(rt.alloc()) else {
        return Err(ErrorKind::OutOfMemory.into());
    };
    let mut desk = RealDesk::new(rt.alloc(), rt.clone()?);
    println!(rt; "a long file")?;
    show_done(
        rt,
        "write of 100000 bytes",
        desk.write(LONG_FILE, bytes.as_slice()),
    )?;
    show(
        rt,
        "read of up to 100000 bytes",
        found(desk.read(LONG_FILE, LONG), bytes.as_slice()),
    )?;
    show_read(
        rt,
        "read of up to 99999 bytes",
        desk.read(LONG_FILE, LONG - 1),
    )?;
    fs::remove_file(rt, LONG_FILE)
}

/// How many names a folder has.
fn count_names(rt: &HostRuntime, folder: &str) -> io::Result<u64> {
    let mut count = 0u64;
    for entry in fs::read_dir(rt, folder)? {
        entry?;
        count = count.saturating_add(1);
    }
    Ok(count)
}

/// The bits of who may do what with a file.
fn mode(rt: &HostRuntime, name: &str) -> io::Result<u32> {
    Ok(fs::metadata(rt, name)?.permissions().mode() & 0o777)
}

/// Writes what is there already, and shows what stands in the folder then.
fn replace(rt: &HostRuntime, desk: &mut RealDesk<HostRuntime>) -> io::Result<()> {
    fs::set_permissions(rt, OLD_FILE, Permissions::from_mode(0o640))?;
    fs::hard_link(rt, OLD_FILE, "folder/second")?;
    show_done(rt, "write of 3 bytes", desk.write(OLD_FILE, b"new"))?;
    show_read(rt, "read", desk.read(OLD_FILE, 9))?;
    show_read(rt, "read by its second name", desk.read("folder/second", 9))?;
    show(rt, "mode is kept", mode(rt, OLD_FILE)? == 0o640)?;
    show(rt, "names in the folder", count_names(rt, FOLDER)?)
}

/// What is a link is written in place.
fn write_link(rt: &HostRuntime, desk: &mut RealDesk<HostRuntime>) -> io::Result<()> {
    symlink(rt, "old", LINK)?;
    show_done(rt, "write of 4 bytes by a link", desk.write(LINK, b"link"))?;
    show_read(rt, "read", desk.read(OLD_FILE, 9))?;
    show(
        rt,
        "still a link",
        fs::symlink_metadata(rt, LINK)?.is_symlink(),
    )
}

/// What fails leaves nothing beside.
fn write_in_vain(rt: &HostRuntime, desk: &mut RealDesk<HostRuntime>) -> io::Result<()> {
    show_done(
        rt,
        "write into no folder",
        desk.write("folder/none/x", b"x"),
    )?;
    show_done(rt, "write of a folder", desk.write(FOLDER, b"x"))?;
    show(rt, "names in the folder", count_names(rt, FOLDER)?)?;
    show(rt, "faults", desk.faults())
}

/// An old file is replaced whole, by a new one that keeps who may do what with it.
pub fn old_file(rt: &HostRuntime) -> io::Result<()> {
    let mut desk = RealDesk::new(rt.alloc(), rt.clone()?);
    println!(rt; "an old file")?;
    fs::create_dir(rt, FOLDER)?;
    show_done(rt, "write of 3 bytes", desk.write(OLD_FILE, b"old"))?;
    show(rt, "names in the folder", count_names(rt, FOLDER)?)?;
    replace(rt, &mut desk)?;
    write_link(rt, &mut desk)?;
    write_in_vain(rt, &mut desk)?;
    fs::remove_dir_all(rt, FOLDER)
}

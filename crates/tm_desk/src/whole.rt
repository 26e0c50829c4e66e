// A real file is written whole: its bytes go into a new file beside it, which takes its name.
//
// So an old file stays as it is until all bytes are written, and where one of the steps fails it stays for good; the
// new file is then removed. What is left:
// - What is no plain file (a device, a pipe, a link, a folder) is opened and written in place, as it has to be.
// - So is a file in whose folder no new file may be made, or whose name leaves no room for a longer one. Where such a
//   write fails in its midst, what the file held before is lost.
// - The new file has the old one's permissions, or those of any new file. It has no others of the old one's attributes:
//   it belongs to whoever writes it, and a second name of the old file (a hard link) keeps the old bytes.
// - A process that is killed between the steps leaves the new file behind. That bytes are on the disk is not waited
//   for.
use std::alloc::Global;
use std::fs::{self, File, OpenFile, OpenOptions, Permissions};
use std::io::{self, ErrorKind, Write};
use std::rt::Files;

/// How many names beside a file are tried. Each is that of the file, a dot, a number from 0 on, and `.new`.
const NAMES_BESIDE: u32 = 1000;

/// What stands under a name.
#[derive(Drop)]
enum Standing {
    Nothing,
    /// A plain file that may be written, with its permissions.
    Plain(Permissions),
    Other,
}

/// What stands under a name. A plain file that may not be written is an error.
fn what_stands<R: Files>(files: &R, name: &str) -> io::Result<Standing> {
    let found = match fs::symlink_metadata(files, name) {
        Ok(found) => found,
        Err(error) if error.kind() == ErrorKind::NotFound => return Ok(Standing::Nothing),
        Err(error) => return Err(error),
    };
    if !found.is_file() {
        return Ok(Standing::Other);
    }
    OpenOptions::new().write(true).open(files, name)?;
    Ok(Standing::Plain(found.permissions()))
}

/// A new empty file beside a name, with its own name; or none, where none may be made or could be named.
fn file_beside<R: Files>(
    alloc: Global,
    files: &R,
    name: &str,
) -> io::Result<Option<(R::File, String)>> {
    for number in 0..NAMES_BESIDE {
        let beside = format!(in alloc; "{name}.{number}.new")?;
        match File::create_new(files, beside.as_str()) {
            Ok(file) => return Ok(Some((file, beside))),
            Err(error) => match error.kind() {
                ErrorKind::AlreadyExists => {}
                ErrorKind::PermissionDenied | ErrorKind::InvalidFilename => return Ok(None),
                _ => return Err(error),
            },
        }
    }
    Err(ErrorKind::AlreadyExists.into())
}

/// Fills a new file with bytes, and gives it permissions where there are some to be kept.
fn fill<F: Write + OpenFile>(
    file: &mut F,
    kept: Option<Permissions>,
    bytes: &[u8],
) -> io::Result<()> {
    if let Some(permissions) = kept {
        file.set_permissions(permissions)?;
    }
    file.write_all(bytes)
}

/// Puts a new file with these bytes in the place of what stands under a name, or writes there where none can be made.
fn put_new<R: Files>(
    alloc: Global,
    files: &R,
    name: &str,
    kept: Option<Permissions>,
    bytes: &[u8],
) -> io::Result<()> {
    let Some((mut file, beside)) = file_beside(alloc, files, name)? else {
        return fs::write(files, name, bytes);
    };
    let put = match fill(&mut file, kept, bytes) {
        Ok(()) => fs::rename(files, beside.as_str(), name),
        Err(error) => Err(error),
    };
    if put.is_err() {
        let _ = fs::remove_file(files, beside.as_str());
    }
    put
}

/// Writes a file whole, or leaves what stood there where this can be done.
pub fn write_whole<R: Files>(alloc: Global, files: &R, name: &str, bytes: &[u8]) -> io::Result<()> {
    match what_stands(files, name)? {
        Standing::Nothing => put_new(alloc, files, name, None, bytes),
        Standing::Plain(permissions) => put_new(alloc, files, name, Some(permissions), bytes),
        Standing::Other => fs::write(files, name, bytes),
    }
}

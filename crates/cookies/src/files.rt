//! Reads and replaces files. The name `-` is standard input or standard output.
ghost use Rattle.std.specs.Prelude.{◌≡◌};
ghost use Rattle.cookies.specs.FileNames.{input_name, output_name};

use std::fs::{self, File, OpenOptions};
use std::io::{self, Read, Write};
use std::os::unix::fs::{OpenOptionsExt, PermissionsExt};
use std::path::{Path, PathBuf};
use std::process;

/// The most files that killed programs may leave in a folder before a file in it cannot be replaced.
const LEFTOVERS: usize = 100;

/// The most symbolic links that a name leads through, as in Linux.
const LINKS: usize = 40;

/// The permission bits by which the owner reads and writes.
const OWNER_BITS: u32 = 0o600;

/// An open descriptor that a name stands for.
#[derive(Clone, Copy, Debug, PartialEq, Eq)]
enum Descriptor {
    Output,
    Error,
    /// One that has to be opened by its name.
    Other,
}

/// Returns the name of what is read.
pub fn input_name(name: &str) -> &str
    ensures { result.now ≡ input_name name.now }
{
    match name {
        "-" => "standard input",
        name => name,
    }
}

/// Returns the name of what is written.
pub fn output_name(name: &str) -> &str
    ensures { result.now ≡ output_name name.now }
{
    match name {
        "-" => "standard output",
        name => name,
    }
}

/// Reads a file or standard input.
pub fn read(rt: &HostRuntime, name: &str) -> io::Result<Vec<u8>> {
    if name != "-" {
        return fs::read(rt, name);
    }
    let mut contents = Vec::new(rt.alloc());
    rt.reader().read_to_end(&mut contents)?;
    Ok(contents)
}

/// Replaces a file, or writes to an open descriptor such as standard output.
///
/// A regular file is replaced at once or, on an error, left as it was; of its mode the owner's read
/// and write bits are kept, and a new file has both. A symbolic link stays, and the file that it
/// names is replaced. A mount point is written in place. A device or a pipe is written.
pub fn write(rt: &HostRuntime, name: &str, contents: &[u8]) -> io::Result<()> {
    match descriptor_of(rt, name)? {
        Some(Descriptor::Output) => return write_all(io::writer(rt), contents),
        Some(Descriptor::Error) => return write_all(rt.stderr(), contents),
        Some(Descriptor::Other) => return append(rt, name, contents),
        None => {}
    }
    let is_link = Path::new(name).is_symlink(rt);
    match fs::metadata(rt, name) {
        Ok(metadata) if !metadata.is_file() => fs::write(rt, name, contents),
        Ok(metadata) => {
            let mode = metadata.permissions().mode() & OWNER_BITS;
            if is_link {
                return replace(rt, fs::canonicalize(rt, name)?.as_str(), mode, contents);
            }
            replace(rt, name, mode, contents)
        }
        Err(error) if is_link || error.kind() != io::ErrorKind::NotFound => Err(error),
        Err(_) => replace(rt, name, OWNER_BITS, contents),
    }
}

/// Returns whether a name other than `-` stands for an open descriptor, which can't be replaced.
pub fn is_descriptor(rt: &HostRuntime, name: &str) -> io::Result<bool> {
    Ok(name != "-" && descriptor_of(rt, name)?.is_some())
}

// Returns the open descriptor that a name stands for, also through symbolic links. The file behind
// it may be one that others write too, so it can't be replaced.
fn descriptor_of(rt: &HostRuntime, name: &str) -> io::Result<Option<Descriptor>> {
    if name == "-" {
        return Ok(Some(Descriptor::Output));
    }
    let mut path = PathBuf::from_str(rt.alloc(), name)?;
    for _ in 0..LINKS {
        path = in_real_folder(rt, path)?;
        let found = descriptor_at(rt, path.as_path())?;
        if found.is_some() || !follow(rt, &mut path)? {
            return Ok(found);
        }
    }
    Ok(None)
}

// Replaces a path by the one that its symbolic link leads to. Returns whether it is a link.
fn follow(rt: &HostRuntime, path: &mut PathBuf) -> io::Result<bool> {
    match unless_memory(fs::read_link(rt, path.as_str()))? {
        Some(target) => {
            path.pop();
            path.push(target)?;
            Ok(true)
        }
        None => Ok(false),
    }
}

// Returns the open descriptor that a path stands for, whose folder has no symbolic links.
fn descriptor_at(rt: &HostRuntime, path: Path<'_>) -> io::Result<Option<Descriptor>> {
    match path.as_str() {
        "/dev/stdout" => return Ok(Some(Descriptor::Output)),
        "/dev/stderr" => return Ok(Some(Descriptor::Error)),
        _ => {}
    }
    let (Some(folder), Some(number)) = (path.parent(), path.file_name()) else {
        return Ok(None);
    };
    if !folder.starts_with("/proc") || folder.file_name() != Some("fd") {
        return Ok(None);
    }
    let own = unless_memory(fs::canonicalize(rt, "/proc/self"))?;
    let is_own = own.is_some_and(|own| folder.starts_with(own));
    Ok(Some(match number {
        "1" if is_own => Descriptor::Output,
        "2" if is_own => Descriptor::Error,
        _ => Descriptor::Other,
    }))
}

// Returns a path without symbolic links, `.` and `..` in its folder, or as it is if the folder
// cannot be resolved.
fn in_real_folder(rt: &HostRuntime, path: PathBuf) -> io::Result<PathBuf> {
    let (Some(folder), Some(last)) = (path.as_path().parent(), path.as_path().file_name()) else {
        return Ok(path);
    };
    let folder = if folder.as_str().is_empty() {
        "."
    } else {
        folder.as_str()
    };
    match unless_memory(fs::canonicalize(rt, folder))? {
        Some(mut real) => {
            real.push(last)?;
            Ok(real)
        }
        None => Ok(path),
    }
}

// Returns `None` for any error but out of memory.
fn unless_memory<T: Drop>(outcome: io::Result<T>) -> io::Result<Option<T>> {
    match outcome {
        Ok(value) => Ok(Some(value)),
        Err(error) if error.kind() == io::ErrorKind::OutOfMemory => Err(error),
        Err(_) => Ok(None),
    }
}

fn write_all<W: Write + Drop>(mut out: W, contents: &[u8]) -> io::Result<()> {
    out.write_all(contents)?;
    out.flush()
}

// Writes to the end of a file.
fn append(rt: &HostRuntime, name: &str, contents: &[u8]) -> io::Result<()> {
    write_all(OpenOptions::new().append(true).open(rt, name)?, contents)
}

// Writes a new file in the same folder, and renames it. A mount point is written in place instead.
fn replace(rt: &HostRuntime, name: &str, mode: u32, contents: &[u8]) -> io::Result<()> {
    let (temporary, file) = create_beside(rt, name, mode)?;
    match fill(file, contents) {
        Ok(()) => move_to(rt, temporary.as_str(), name, contents),
        Err(error) => give_up(rt, temporary.as_str(), error),
    }
}

// Renames `temporary`, which has these contents, or writes a mount point in place.
fn move_to(rt: &HostRuntime, temporary: &str, name: &str, contents: &[u8]) -> io::Result<()> {
    match fs::rename(rt, temporary, name) {
        Err(error) if is_of_mount_point(&error) => { write_in_place(rt, temporary, name, contents) }
        Err(error) => give_up(rt, temporary, error),
        Ok(()) => Ok(()),
    }
}

// Removes `temporary`, and returns the error.
fn give_up(rt: &HostRuntime, temporary: &str, error: io::Error) -> io::Result<()> {
    let _ = fs::remove_file(rt, temporary);
    Err(error)
}

// Creates a file in the folder of another. Returns its name too.
fn create_beside(rt: &HostRuntime, name: &str, mode: u32) -> io::Result<(PathBuf, File)> {
    let mut options = OpenOptions::new();
    options.write(true).create_new(true).mode(mode);
    for number in 0..LEFTOVERS {
        let temporary = temporary_name(rt, name, number)?;
        match options.open(rt, temporary.as_str()) {
            Ok(file) => return Ok((temporary, file)),
            Err(error) if error.kind() == io::ErrorKind::AlreadyExists => {}
            Err(error) => return Err(error),
        }
    }
    Err(io::Error::from(io::ErrorKind::AlreadyExists))
}

// Returns the name of a temporary file in the folder of another.
fn temporary_name(rt: &HostRuntime, name: &str, number: usize) -> io::Result<PathBuf> {
    let id = process::id(rt.process());
    let short = format!(in rt.alloc(); ".cookies-{id}-{number}.tmp")?;
    Ok(Path::new(name).with_file_name(rt.alloc(), short.as_str())?)
}

// Writes to a file, and waits until the disk has it.
fn fill(mut file: File, contents: &[u8]) -> io::Result<()> {
    file.write_all(contents)?;
    file.sync_all()
}

// Whether a rename failed because the file is a mount point, such as a file mounted in a container.
fn is_of_mount_point(error: &io::Error) -> bool {
    matches!(
        error.kind(),
        io::ErrorKind::ResourceBusy | io::ErrorKind::CrossesDevices
    )
}

// Writes a file in place, and removes `temporary`, which has the same contents. If the file is
// written only in part, `temporary` stays.
fn write_in_place(
    rt: &HostRuntime,
    temporary: &str,
    name: &str,
    contents: &[u8],
) -> io::Result<()> {
    match OpenOptions::new().write(true).truncate(true).open(rt, name) {
        Ok(file) => {
            fill(file, contents)?;
            fs::remove_file(rt, temporary)
        }
        Err(error) => give_up(rt, temporary, error),
    }
}

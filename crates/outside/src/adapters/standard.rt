//! The descriptors of the standard streams.
use std::fs::{File, Files};
use std::io;
use std::os::fd::AsRawFd;

/// The descriptor of standard error, the last of the three.
const LAST: i32 = 2;

/// Folders whose open files have those of the descriptors 0 to 2 that the program was started without. A file that is
/// opened later gets none of the three, and each read from a folder and each write to it fails.
#[derive(Drop)]
pub struct StandardStreams<F> {
    first: Option<F>,
    second: Option<F>,
    third: Option<F>,
}

impl<F: AsRawFd> StandardStreams<F> {
    /// The standard streams of this program, held until the result is dropped. The error is the system's, where no
    /// folder can be opened: then a file that is opened later may get the descriptor of a standard stream.
    pub fn hold<R: Files<File = F>>(rt: &R) -> io::Result<StandardStreams<F>> {
        Ok(StandardStreams {
            first: hold_next(rt)?,
            second: hold_next(rt)?,
            third: hold_next(rt)?,
        })
    }
}

/// An open folder, if it has the descriptor of a standard stream. The system gives the lowest one that is free.
fn hold_next<R: Files>(rt: &R) -> io::Result<Option<R::File>>
where
    R::File: AsRawFd,
{
    let folder = open_folder(rt)?;
    if folder.as_raw_fd() > LAST {
        return Ok(None);
    }
    Ok(Some(folder))
}

/// The system's first folder, or the null device where that folder may not be read.
fn open_folder<R: Files>(rt: &R) -> io::Result<R::File> {
    match File::open(rt, "/") {
        Ok(folder) => Ok(folder),
        Err(_) => File::open(rt, "/dev/null"),
    }
}

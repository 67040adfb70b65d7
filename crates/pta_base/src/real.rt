// Files and standard streams: the trusted edge. They tell no content, and count each failure.
ghost use Rattle.std.specs.Prelude.{◌<◌, ◌≤◌, length, None, IfOk};

use crate::{Failed, Sink, Units};
use std::fs;
use std::io::{self, Read, Seek, SeekFrom, Write};
use std::rt::Files;

/// The most bytes of a name that is remembered: a unit's name has no more.
const REMEMBERED: usize = 255;

/// An open file with the first bytes of its name, the length of the name, and the place of the next byte that it gives.
#[derive(Drop)]
struct OpenFile<F: Drop> {
    name: [u8; REMEMBERED],
    len: usize,
    file: F,
    place: u64,
}

impl<F: Drop> OpenFile<F> {
    /// A file that was just opened.
    fn under(name: &str, file: F) -> OpenFile<F> {
        let mut kept = [0u8; REMEMBERED];
        let count = name.len().min(REMEMBERED);
        kept[..count].copy_from_slice(&name.as_bytes()[..count]);
        OpenFile {
            name: kept,
            len: name.len(),
            file,
            place: 0,
        }
    }

    /// Whether it was opened under this name. A name that is too long to be remembered is no file's.
    fn is_of(&self, name: &str) -> bool {
        self.len == name.len()
            && self.len <= REMEMBERED
            && &self.name[..self.len] == name.as_bytes()
    }
}

/// Files by name: a unit's name is the path of its file. No text is told, since no clause can say what a file holds. The file
/// of the last name stays open, and a read goes on where the last one ended; only a read at another place seeks. So a file that
/// is replaced meanwhile is read as it was, and a pipe can be read from its start on. A name of over 255 bytes isn't remembered:
/// its file is opened for each read. Each failure to open, to seek or to read counts as a fault, whatever the name; then the
/// file is closed. No memory is taken.
#[derive(Drop)]
pub struct FileUnits<'a, R: Files + AllocGlobal> {
    rt: &'a R,
    open: Option<OpenFile<R::File>>,
    faults: u64,
}

impl<'a, R: Files + AllocGlobal> FileUnits<'a, R> {
    /// The files that the runtime reaches. None is open, and no fault has been.
    pub fn new(rt: &'a R) -> FileUnits<'a, R> {
        FileUnits {
            rt,
            open: None,
            faults: 0,
        }
    }
}

/// The file of a name: the one that is open, where it has that name.
fn file_of<R: Files + AllocGlobal>(
    rt: &R,
    open: Option<OpenFile<R::File>>,
    name: &str,
) -> io::Result<OpenFile<R::File>> {
    if let Some(open) = open
        && open.is_of(name)
    {
        return Ok(open);
    }
    Ok(OpenFile::under(name, fs::open(rt, name)?))
}

/// Reads from a place on.
fn read_at<F: Read + Seek + Drop>(
    open: &mut OpenFile<F>,
    at: u64,
    buf: &mut [u8],
) -> io::Result<usize>
    ensures { IfOk result (λ count. count ≤ length buf.new) }
{
    if open.place != at {
        open.file.seek(SeekFrom::Start(at))?;
        open.place = at;
    }
    let count = open.file.read(buf)?;
    open.place = at.saturating_add(count as u64);
    Ok(count)
}

/// Reads the file of a name from a place on, and leaves it open.
fn read_on<R: Files + AllocGlobal>(
    rt: &R,
    open: &mut Option<OpenFile<R::File>>,
    name: &str,
    at: u64,
    buf: &mut [u8],
) -> io::Result<usize>
    ensures { IfOk result (λ count. count ≤ length buf.new) }
{
    let mut file = file_of(rt, open.take(), name)?;
    let count = read_at(&mut file, at, buf)?;
    *open = Some(file);
    Ok(count)
}

impl<'a, R: Files + AllocGlobal> Units for FileUnits<'a, R> {
    ghost text = { λ units name. None };

    ghost faults = { λ units name. units.faults };

    fn read(&mut self, name: &str, at: u64, buf: &mut [u8]) -> Result<usize, Failed> {
        match read_on(self.rt, &mut self.open, name, at, buf) {
            Ok(count) => Ok(count),
            Err(_) => {
                self.faults = self.faults.saturating_add(1);
                Err(Failed)
            }
        }
    }
}

/// A stream, such as standard output, that is flushed before a write answers `Ok`. What was written isn't told. Each failure
/// to write or to flush counts as a fault, and so does a write that takes nothing.
#[derive(Drop)]
pub struct StreamSink<W: Write + Drop> {
    writer: W,
    faults: u64,
}

impl<W: Write + Drop> StreamSink<W> {
    /// The stream behind a writer. No fault has been.
    pub fn new(writer: W) -> StreamSink<W> {
        StreamSink { writer, faults: 0 }
    }
}

/// Writes and flushes; an `Ok` has taken something.
fn write_through<W: Write>(writer: &mut W, piece: &[u8]) -> io::Result<usize>
    requires { 0 < length piece.now }
    ensures { IfOk result (λ count. count ≤ length piece.now) }
{
    let count = writer.write(piece)?;
    writer.flush()?;
    Ok(count)
}

impl<W: Write + Drop> Sink for StreamSink<W> {
    ghost written = { λ sink. None };

    ghost faults = { λ sink. sink.faults };

    fn write(&mut self, piece: &[u8]) -> Result<usize, Failed> {
        if let Ok(count) = write_through(&mut self.writer, piece)
            && count > 0
        {
            return Ok(count);
        }
        self.faults = self.faults.saturating_add(1);
        Err(Failed)
    }
}

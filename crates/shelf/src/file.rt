// The thin edge over real files: what they hold is not told, so no clause rests on it.
ghost use Rattle.std.specs.Prelude.{◌≤◌, None, length, IfOk};
ghost use Rattle.shelf.specs.Counters.{count_of};

use crate::counters::Counters;
use crate::outside::{Failed, Kind, Shelf};
use std::fs::File;
use std::io::{ErrorKind, Read, Seek, SeekFrom, Write};
use std::rt::Files;
use std::{fs, io};

/// Real files, and two writers in place of the names `-` and `!`.
///
/// It tells no content, has no sure name, and keeps one counter for each kind of call, which rises at each fault of the
/// system. A write that takes nothing of what is not empty is a fault too, and so is a length that is none: that of a name
/// which is no regular file, or is said to be empty, and is not empty when it is read.
#[derive(Drop)]
pub struct FileShelf<R: Files + Drop, O: Write + Drop, E: Write + Drop> {
    rt: R,
    out: O,
    err: E,
    faults: Counters,
}

/// The length of what the name holds. A pipe, a device or a folder tells none that could be read up to: such a name has the
/// length 0 where nothing is there to be read, and none otherwise, and the same holds of a file that is said to be empty.
fn length_of<R: Files>(rt: &R, name: &str) -> io::Result<u64> {
    let metadata = fs::metadata(rt, name)?;
    if metadata.is_file() && metadata.len() > 0 {
        return Ok(metadata.len());
    }
    match read_at(rt, name, 0, &mut [0])? {
        0 => Ok(0),
        _ => Err(io::Error::from(ErrorKind::InvalidData)),
    }
}

fn read_at<R: Files>(rt: &R, name: &str, at: u64, buf: &mut [u8]) -> io::Result<usize>
    ensures { IfOk result (λ n. n ≤ length buf.new) }
{
    let mut file = fs::open(rt, name)?;
    file.seek(SeekFrom::Start(at))?;
    file.read(buf)
}

fn write_end<R: Files>(rt: &R, name: &str, bytes: &[u8]) -> io::Result<usize>
    ensures { IfOk result (λ n. n ≤ length bytes.now) }
{
    let mut file = File::options().append(true).create(true).open(rt, name)?;
    file.write(bytes)
}

impl<R: Files + Drop, O: Write + Drop, E: Write + Drop> FileShelf<R, O, E> {
    /// The files that `rt` reaches, with `out` as standard output and `err` as standard error.
    pub fn new(rt: R, out: O, err: E) -> Self {
        FileShelf {
            rt,
            out,
            err,
            faults: Counters::new(),
        }
    }
}

impl<R: Files + Drop, O: Write + Drop, E: Write + Drop> Shelf for FileShelf<R, O, E> {
    ghost content = { λ s n. None };

    ghost faults = { λ s k n. count_of s.faults k };

    ghost sure = { λ s n. ⊥ };

    fn size(&mut self, name: &str) -> Result<u64, Failed> {
        match length_of(&self.rt, name) {
            Ok(length) => Ok(length),
            Err(_) => {
                self.faults.raise(Kind::Reading);
                Err(Failed)
            }
        }
    }

    fn read(&mut self, name: &str, at: u64, buf: &mut [u8]) -> Result<usize, Failed> {
        match read_at(&self.rt, name, at, buf) {
            Ok(n) => Ok(n),
            Err(_) => {
                self.faults.raise(Kind::Reading);
                Err(Failed)
            }
        }
    }

    fn start(&mut self, name: &str) -> Result<(), Failed> {
        if name == "-" || name == "!" {
            return Ok(());
        }
        match fs::create(&self.rt, name) {
            Ok(_) => Ok(()),
            Err(_) => {
                self.faults.raise(Kind::Writing);
                Err(Failed)
            }
        }
    }

    fn append(&mut self, name: &str, bytes: &[u8]) -> Result<usize, Failed> {
        let written = match name {
            "-" => self.out.write(bytes),
            "!" => self.err.write(bytes),
            _ => write_end(&self.rt, name, bytes),
        };
        match written {
            Ok(n) if n > 0 || bytes.is_empty() => Ok(n),
            _ => {
                self.faults.raise(Kind::Writing);
                Err(Failed)
            }
        }
    }
}

//! A disk over a file of the operating system.
ghost use Rattle.std.specs.Prelude.{◌≡◌, ◌≤◌, ◌+◌, Ok, IfOk, OnOk, length};
ghost use Rattle.std.specs.Io.{ReadsAtMost};
ghost use Rattle.poets_io.specs.Causes.{HasCause};
ghost use Rattle.poets_disk.specs.Disks.{longest_file};

use crate::Disk;
use poets_io::Failed;
use std::fs::{File, OpenOptions};
use std::io::{self, ErrorKind};
use std::os::unix::fs::FileExt;

/// The name of the file, in the current folder.
const NAME: &str = "poets.journal";

/// The most bytes of a file.
const LONGEST_FILE: u64 = 9_223_372_036_854_775_807;

/// The file `poets.journal` in the current folder. The first call of `Disk` opens it, or makes it where there is none;
/// that it cannot is a fault. No clause tells its bytes or images: that the system keeps a file as `Disk` says is
/// trusted.
#[derive(Drop)]
pub struct FileDisk<'a> {
    rt: &'a HostRuntime,
    file: Option<File>,
    faults: u64,
}

impl<'a> FileDisk<'a> {
    /// Opens nothing yet.
    pub fn new(rt: &'a HostRuntime) -> FileDisk<'a>
        ensures { result.faults ≡ 0 }
    {
        FileDisk {
            rt,
            file: None,
            faults: 0,
        }
    }
}

impl<'a> Disk for FileDisk<'a> {
    ghost use Rattle.poets_disk.specs.Untold.{untold, untold_has_none, untold_is_silent};

    ghost seen = { λ _. untold };

    ghost faults = { λ f. f.faults };

    ghost reads_image = { λ f file is. untold_has_none file is };

    ghost silent = { λ f start image is since. untold_is_silent start image since };

    fn length(&mut self) -> Result<u64, Failed> {
        let length = length_of(self.rt, &mut self.file);
        counted(&mut self.faults, length)
    }

    fn read(&mut self, at: u64, buf: &mut [u8]) -> Result<usize, Failed> {
        let count = read_at(self.rt, &mut self.file, at, buf);
        counted(&mut self.faults, count)
    }

    fn write(&mut self, at: u64, piece: &[u8]) -> Result<(), Failed> {
        let written = write_at(self.rt, &mut self.file, at, piece);
        counted(&mut self.faults, written)
    }

    fn sync(&mut self) -> Result<(), Failed> {
        let synced = sync_all(self.rt, &mut self.file);
        counted(&mut self.faults, synced)
    }
}

// What came of a call. A fault is counted.
fn counted<T>(faults: &mut u64, outcome: io::Result<T>) -> Result<T, Failed>
    ensures value { IfOk result (λ value. outcome ≡ Ok value) }
    ensures cause { HasCause faults.old faults.new result }
{
    match outcome {
        Ok(value) => Ok(value),
        Err(_) => {
            *faults = faults.saturating_add(1);
            Err(Failed)
        }
    }
}

// The file, which is opened where it is not yet.
fn opened(rt: &HostRuntime, file: Option<File>) -> io::Result<File> {
    match file {
        Some(file) => Ok(file),
        None => open(rt),
    }
}

// Opens the file, or makes it. A sync of the folder sees to it that a crash leaves its name.
fn open(rt: &HostRuntime) -> io::Result<File> {
    let file = OpenOptions::new()
        .read(true)
        .write(true)
        .create(true)
        .open(rt, NAME)?;
    File::open(rt, ".")?.sync_all()?;
    Ok(file)
}

// How long the file is.
fn length_of(rt: &HostRuntime, file: &mut Option<File>) -> io::Result<u64>
    ensures { IfOk result (λ n. n ≤ longest_file) }
{
    let open = opened(rt, file.take())?;
    let metadata = open.metadata();
    *file = Some(open);
    let length = metadata?.len();
    if length > LONGEST_FILE {
        return Err(ErrorKind::FileTooLarge.into());
    }
    Ok(length)
}

// Reads some bytes from a place on.
fn read_at(rt: &HostRuntime, file: &mut Option<File>, at: u64, buf: &mut [u8]) -> io::Result<usize>
    ensures { ReadsAtMost result buf.new }
{
    let open = opened(rt, file.take())?;
    let count = read_through(&open, at, buf);
    *file = Some(open);
    count
}

// Reads some bytes from a place on, again where the read was interrupted.
fn read_through(file: &File, at: u64, buf: &mut [u8]) -> io::Result<usize>
    ensures { ReadsAtMost result buf.new }
{
    for _ in 0..u64::MAX {
        match file.read_at(buf, at) {
            Ok(count) => return Ok(count),
            Err(error) if error.kind() == ErrorKind::Interrupted => {}
            Err(error) => return Err(error),
        }
    }
    Err(ErrorKind::Interrupted.into())
}

// Writes the whole piece from a place on.
fn write_at(rt: &HostRuntime, file: &mut Option<File>, at: u64, piece: &[u8]) -> io::Result<()>
    ensures { OnOk result (at + length piece.now ≤ longest_file) }
{
    if at > LONGEST_FILE || piece.len() as u64 > LONGEST_FILE - at {
        return Err(ErrorKind::FileTooLarge.into());
    }
    let open = opened(rt, file.take())?;
    let written = open.write_all_at(piece, at);
    *file = Some(open);
    written
}

// Has the system put the file on the disk.
fn sync_all(rt: &HostRuntime, file: &mut Option<File>) -> io::Result<()> {
    let open = opened(rt, file.take())?;
    let synced = open.sync_all();
    *file = Some(open);
    synced
}

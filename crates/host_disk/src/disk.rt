//! A file of the system as the disk of a key file. It tells nothing of the file's bytes, of
//! which a crash may leave any as far as its contract says, and counts its faults.
ghost use Rattle.std.specs.Prelude.{None};

use crate::system_file::SystemFile;
use crate::transfer::{read_from, sync_all, write_from};
use crash_disk::{Disk, DiskAnswer, DiskRead, nothing_is_torn};
use std::fs::{File, OpenFile, OpenOptions};
use std::io::ErrorKind;
use std::os::unix::fs::OpenOptionsExt;
use std::path::Path;
use std::{io, rt};

/// A file that one opener at a time may hold.
pub trait Lock {
    /// Takes the file's lock until the file is closed, or fails where another opener holds it.
    fn hold(&self) -> io::Result<()>;
}

impl Lock for File {
    fn hold(&self) -> io::Result<()> {
        match self.try_lock() {
            Ok(()) => Ok(()),
            Err(error) => Err(io::Error::from(error)),
        }
    }
}

/// A file of the system. Where nothing is chosen yet, and after a choice that failed, each call fails. The choice of a
/// fresh file fails where the name stands; the file is then its owner's alone to read and write, and its folder is
/// brought onto the disk. While a file is chosen its lock is held: the choice of a file that another holds fails.
#[derive(Drop)]
pub struct HostDisk<'a, R: rt::Files> {
    rt: &'a R,
    file: Option<SystemFile<R::File>>,
    faults: u64,
}

impl<'a, R: rt::Files> HostDisk<'a, R> {
    ghost use Rattle.std.specs.Prelude.{◌≡◌};
    ghost use Rattle.host_disk.specs.Faults.{disk_faults};

    /// Over the system of `rt`, with no file yet.
    pub fn new(rt: &'a R) -> Self
        ensures { disk_faults result ≡ 0 }
    {
        HostDisk {
            rt,
            file: None,
            faults: 0,
        }
    }
}

impl<'a, R: rt::Files> Disk for HostDisk<'a, R>
where
    R::File: Lock,
{
    ghost use Rattle.host_disk.specs.Faults.{disk_faults};

    ghost faults = { λ disk. disk_faults disk };

    ghost file = { λ _. None };

    ghost names = { λ _. None };

    ghost may_leave = { λ _ _. Unit {0} };

    ghost moment = { λ _. 0 };

    ghost left_since = { λ _ _ _. Unit {0} };

    ghost names_show_file = { λ _. tt };

    ghost read_is_image = { λ _. tt };

    ghost counts_now = { λ _ _ _ _ _. tt };

    ghost only_now = { λ _ _ _. tt };

    fn choose(&mut self, name: &String, fresh: bool) -> DiskAnswer {
        self.file = None;
        match held_file(self.rt, name, fresh) {
            Ok(file) => {
                self.file = Some(SystemFile::new(file));
                DiskAnswer::Done
            }
            Err(_) => {
                self.faults = self.faults.saturating_add(1);
                DiskAnswer::Failed
            }
        }
    }

    fn read_at(&mut self, at: u32, into: &mut [u8]) -> DiskRead {
        match read_from(&mut self.file, at, into) {
            Ok(taken) => DiskRead::Read { taken },
            Err(_) => {
                self.faults = self.faults.saturating_add(1);
                DiskRead::Failed
            }
        }
    }

    fn write_at(&mut self, at: u32, bytes: &[u8]) -> DiskAnswer {
        // It tells of no image, so of none that a write tears.
        nothing_is_torn();
        match write_from(&mut self.file, at, bytes) {
            Ok(()) => DiskAnswer::Done,
            Err(_) => {
                self.faults = self.faults.saturating_add(1);
                DiskAnswer::Failed
            }
        }
    }

    fn sync(&mut self) -> DiskAnswer {
        match sync_all(&mut self.file) {
            Ok(()) => DiskAnswer::Done,
            Err(_) => {
                self.faults = self.faults.saturating_add(1);
                DiskAnswer::Failed
            }
        }
    }
}

// Opens a file, takes its lock, and brings the folder of a fresh one onto the disk.
fn held_file<R: rt::Files>(rt: &R, name: &String, fresh: bool) -> io::Result<R::File>
where
    R::File: Lock,
{
    let file = open_file(rt, name, fresh)?;
    file.hold()?;
    if fresh {
        sync_folder(rt, name)?;
    }
    Ok(file)
}

// Brings the folder of a name onto the disk.
fn sync_folder<R: rt::Files>(rt: &R, name: &String) -> io::Result<()> {
    let path = Path::new(name.as_str());
    let folder = match path.parent() {
        Some(folder) if !folder.as_str().is_empty() => folder.as_str(),
        _ => ".",
    };
    OpenOptions::new().read(true).open(rt, folder)?.sync_all()
}

// Opens a file for reading and writing.
fn open_file<R: rt::Files>(rt: &R, name: &String, fresh: bool) -> io::Result<R::File> {
    let mut options = OpenOptions::new();
    options.read(true).write(true);
    options.create_new(fresh).mode(0o600);
    for _ in 0..u64::MAX {
        match options.open(rt, name.as_str()) {
            Err(error) if error.kind() == ErrorKind::Interrupted => {}
            answer => return answer,
        }
    }
    Err(io::Error::from(ErrorKind::Interrupted))
}

//! The name of the one file that a disk in memory has room for.
use crate::room::Room;
use std::alloc::{AllocError, Global};

/// The name, whether a file stands under it, and whether this is chosen.
#[derive(Debug, Drop)]
pub struct Naming {
    pub name: Room,
    pub stands: bool,
    pub chosen: bool,
}

impl Naming {
    ghost use Rattle.std.specs.Prelude.{◌≡◌, ◌≤◌, IfOk, IsTrue, length, string_bytes};
    ghost use Rattle.crash_disk.specs.Naming.{allows, chosen_as, is_chosen, is_named, no_file};

    /// There is no file yet.
    pub fn none(alloc: Global) -> Result<Naming, AllocError>
        ensures { IfOk result (λ naming. naming ≡ no_file) }
    {
        Ok(Naming {
            name: Room::new(alloc, &[])?,
            stands: false,
            chosen: false,
        })
    }

    /// A file stands under this name, and is chosen.
    pub fn of(alloc: Global, name: &[u8]) -> Result<Naming, AllocError>
        requires { length name.now ≤ 128 }
        ensures { IfOk result (λ naming. naming ≡ chosen_as name.now) }
    {
        Ok(Naming {
            name: Room::new(alloc, name)?,
            stands: true,
            chosen: true,
        })
    }

    /// The same once more.
    pub fn copy(&self, alloc: Global) -> Result<Naming, AllocError>
        ensures { IfOk result (λ naming. naming ≡ self.now) }
    {
        Ok(Naming {
            name: Room::new(alloc, self.name.bytes())?,
            stands: self.stands,
            chosen: self.chosen,
        })
    }

    /// Whether a file stands under this name.
    pub fn is(&self, name: &String) -> bool
        ensures value { result ≡ is_named self.now (string_bytes name.now) }
        ensures within { IsTrue result → length (string_bytes name.now) ≤ 128 }
    {
        self.stands && self.name.bytes() == name.as_bytes()
    }

    /// Whether the file is chosen.
    pub fn is_chosen(&self) -> bool
        ensures { result ≡ is_chosen self.now }
    {
        self.stands && self.chosen
    }

    /// Whether this name may be chosen: a fresh one of at most 128 bytes where no file stands, or that of the file.
    pub fn allows(&self, name: &String, fresh: bool) -> bool
        ensures value { result ≡ allows self.now (string_bytes name.now) fresh }
        ensures within { IsTrue result → length (string_bytes name.now) ≤ 128 }
    {
        if fresh {
            return !self.stands && name.len() <= 128;
        }
        self.is(name)
    }

    /// A file stands under this name from now on, and is chosen.
    pub fn choose(&mut self, name: &String)
        requires { length (string_bytes name.now) ≤ 128 }
        ensures { self.new ≡ chosen_as (string_bytes name.now) }
    {
        self.name.set(name.as_bytes());
        self.stands = true;
        self.chosen = true;
    }
}

//! A folder as a source of pages: the files below it, by their paths.
ghost use Rattle.std.specs.Prelude.{◌≡◌, ◌≤◌, ◌↔◌, ℕ, IfOk, IsTrue, Some, length};
ghost use Rattle.std.specs.Cmp.Rules.{comparing};
ghost use Rattle.std.proofs.Common.{rules};
ghost use Rattle.clru_files.specs.Reading.{IsRecent};

use crate::fault::Fault;
use clru::NonZeroUsize;
use clru_through::{ByPromise, Fetch};
use std::alloc::Global;
use std::fs::{self, File, Files};
use std::io::Read;
use std::time::{Duration, Instant, UNIX_EPOCH};

/// What a file says of itself: how many bytes it has, and the nanosecond of its last change, 0 where that is not known.
#[derive(Clone, Copy)]
pub struct Stat {
    pub length: usize,
    pub changed: u128,
}

/// The bytes of a file, what it said of itself before they were read, and from when they are, where a time was given.
#[derive(Drop)]
pub struct Page {
    pub bytes: Vec<u8>,
    pub stat: Stat,
    pub read_at: Option<Instant>,
}

impl Page {
    /// Returns whether the file still says the same of itself.
    pub fn is_of(&self, now: Stat) -> bool
        ensures { IsTrue result ↔ (self.now.stat ≡ now) }
    {
        self.stat.length == now.length && self.stat.changed == now.changed
    }

    /// Returns whether the page was read at most so long ago. If the clock went back, a page from later counts as one from now.
    pub fn is_recent(&self, now: Instant, limit: Duration) -> bool
        ensures { IsTrue result ↔ IsRecent limit now self.now }
    {
        match self.read_at {
            Some(at) => now.duration_since(at).as_nanos() <= limit.as_nanos(),
            None => false,
        }
    }
}

/// The files below a folder. A file that has more bytes than the capacity is not read.
#[derive(Drop)]
pub struct Folder<'f, R: Files> {
    files: &'f R,
    alloc: Global,
    root: &'f str,
    longest: usize,
}

impl<'f, R: Files> Folder<'f, R> {
    pub fn new(files: &'f R, alloc: Global, root: &'f str, capacity: NonZeroUsize) -> Self {
        Folder {
            files,
            alloc,
            root,
            longest: capacity.get(),
        }
    }

    /// The path from where the program was started.
    fn place_of(&self, path: &str) -> Result<String, Fault> {
        if path.is_empty() || path.starts_with('/') || path.split('/').any(|part| part == "..") {
            return Err(Fault::Outside);
        }
        let mut place = String::new(self.alloc);
        match write!(&mut place, "{}/{path}", self.root) {
            Ok(()) => Ok(place),
            Err(_) => Err(Fault::Memory),
        }
    }

    /// Returns what the file of a path says of itself now.
    pub fn stat_of(&self, path: &str) -> Result<Stat, Fault>
        ensures { IfOk result (λ stat. stat.length ≤ self.now.longest) }
    {
        let place = self.place_of(path)?;
        let about = fs::metadata(self.files, place.as_str())?;
        if about.is_dir() {
            return Err(Fault::Folder);
        }
        if !about.is_file() {
            return Err(Fault::Special);
        }
        match usize::try_from(about.len()) {
            Ok(length) if length <= self.longest => Ok(Stat {
                length,
                changed: changed(&about),
            }),
            _ => Err(Fault::TooLong),
        }
    }

    /// Returns the page of a path's file, which is read now.
    pub fn page_at(&self, path: &str, now: Instant) -> Result<Page, Fault>
        ensures length { IfOk result (λ page. length page.bytes.items ≤ self.now.longest) }
        ensures read_at { IfOk result (λ page. page.read_at ≡ Some now) }
    {
        let stat = self.stat_of(path)?;
        self.read(path, stat, Some(now))
    }

    /// The bytes of a file that says it has so many, and not one more.
    fn read(&self, path: &str, stat: Stat, read_at: Option<Instant>) -> Result<Page, Fault>
        ensures length { IfOk result (λ page. length page.bytes.items ≤ stat.length) }
        ensures stat { IfOk result (λ page. page.stat ≡ stat) }
        ensures read_at { IfOk result (λ page. page.read_at ≡ read_at) }
    {
        let most = stat.length;
        let place = self.place_of(path)?;
        let file = File::open(self.files, place.as_str())?;
        let Ok(mut bytes) = Vec::with_capacity(self.alloc, most.saturating_add(1)) else {
            return Err(Fault::Memory);
        };
        file.take((most as u64).saturating_add(1))
            .read_to_end(&mut bytes)?;
        if bytes.len() > most {
            return Err(Fault::Longer);
        }
        Ok(Page {
            bytes,
            stat,
            read_at,
        })
    }
}

/// The nanosecond of a file's last change, 0 where it is not known.
fn changed(about: &fs::Metadata) -> u128 {
    match about.modified() {
        Ok(time) => match time.duration_since(UNIX_EPOCH) {
            Ok(since) => since.as_nanos(),
            Err(_) => 0,
        },
        Err(_) => 0,
    }
}

impl<'f, R: Files> Fetch<String, Page, Fault, ByPromise> for Folder<'f, R> {
    // What a file holds may change at any time, so its length alone is promised.
    ghost Promise = { ℕ };

    ghost promised = { λ folder _. folder.longest };

    ghost keeps = { λ longest page. length page.bytes.items ≤ longest };

    ghost fetches = { λ old _ _ new. new ≡ old };

    fn fetch(&mut self, path: &String) -> Result<Page, Fault> {
        let stat = self.stat_of(path)?;
        self.read(path, stat, None)
    }

    ghost same = { Prim.search (rules, comparing) };
}

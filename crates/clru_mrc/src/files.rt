//! The input: files, one after another.
ghost use Rattle.std.specs.Prelude.{◌≤◌, length};
ghost use Rattle.std.specs.Io.{ReadsAtMost};

use std::fs::{self, File};
use std::io::{self, ErrorKind, IsTerminal, Read, Stdin};

// Whether it names standard input.
fn is_standard(path: &str) -> bool {
    path == "-"
}

/// Why a file was not read.
#[derive(Clone, Copy)]
enum Trouble {
    Missing,
    Denied,
    Directory,
    Packed,
    Other,
}

impl From<io::Error> for Trouble {
    fn from(error: io::Error) -> Trouble {
        match error.kind() {
            ErrorKind::NotFound | ErrorKind::NotADirectory => Trouble::Missing,
            ErrorKind::PermissionDenied => Trouble::Denied,
            ErrorKind::IsADirectory => Trouble::Directory,
            _ => Trouble::Other,
        }
    }
}

#[derive(Drop)]
enum Source {
    File(File),
    Standard(Stdin),
}

/// Reads files in their order. The last line of each ends there: if another file follows, a newline is added where it has none.
#[derive(Drop)]
pub(crate) struct InputFiles<'h> {
    rt: &'h HostRuntime,
    paths: &'h [String],
    // How many of them were opened.
    opened: usize,
    source: Option<Source>,
    // Whether none of its bytes was read.
    is_new: bool,
    last: u8,
    // What was wrong with the file that was opened last.
    trouble: Option<Trouble>,
}

impl<'h> InputFiles<'h> {
    pub(crate) fn new(rt: &'h HostRuntime, paths: &'h [String]) -> Self {
        InputFiles {
            rt,
            paths,
            opened: 0,
            source: None,
            is_new: false,
            last: b'\n',
            trouble: None,
        }
    }

    /// Whether each file is there and may be read, as far as that is known before any is.
    pub(crate) fn are_there(&mut self) -> bool {
        for path in self.paths {
            self.opened = self.opened.saturating_add(1);
            self.trouble = trouble_of(self.rt, path.as_str());
            if self.trouble.is_some() {
                return false;
            }
        }
        self.opened = 0;
        true
    }

    /// Tells a terminal that it is read.
    pub(crate) fn tell_terminal(&self) {
        let is_named = self.paths.iter().any(|path| is_standard(path.as_str()));
        if is_named && self.rt.stdin().is_terminal() {
            let _ = eprintln!(self.rt;
                "clru_mrc: standard input is read up to Ctrl-D: name files to read these, or see clru_mrc --help"
            );
        }
    }

    /// What warnings call the input.
    pub(crate) fn name(&self) -> &'static str {
        match self.paths {
            [path] if is_standard(path.as_str()) => "standard input",
            [_] => "the file",
            _ => "the input",
        }
    }

    /// Tells why it cannot be read.
    pub(crate) fn tell_trouble(&self) {
        let path = match self.opened.checked_sub(1) {
            Some(at) => self.paths.get(at),
            None => None,
        };
        let Some(path) = path else {
            return;
        };
        if is_standard(path.as_str()) {
            let _ = eprintln!(self.rt; "clru_mrc: standard input cannot be read");
            return;
        }
        let why = match self.trouble {
            Some(Trouble::Missing) => "cannot be read: there is no such file",
            Some(Trouble::Denied) => "cannot be read: permission is denied",
            Some(Trouble::Directory) => "cannot be read: it is a directory",
            Some(Trouble::Packed) => {
                "begins as gzip does: unpack it first, as in zcat -f FILE.. | clru_mrc"
            }
            Some(Trouble::Other) | None => "cannot be read",
        };
        let _ = eprintln!(self.rt; "clru_mrc: {path:?} {why}");
    }

    // Opens the next file. Returns whether there is one.
    fn open_next(&mut self) -> Result<bool, Trouble> {
        let Some(path) = self.paths.get(self.opened) else {
            return Ok(false);
        };
        self.opened = self.opened.saturating_add(1);
        self.source = Some(if is_standard(path.as_str()) {
            Source::Standard(self.rt.stdin())
        } else {
            Source::File(File::open(self.rt, path.as_str())?)
        });
        self.is_new = true;
        Ok(true)
    }

    // One read of the file that is open, or of the next ones until one gives bytes.
    fn read_next(&mut self, buf: &mut [u8]) -> Result<usize, Trouble>
        ensures { ReadsAtMost result buf.new }
    {
        if buf.is_empty() {
            return Ok(0);
        }
        for _ in 0..=self.paths.len() {
            if self.source.is_none() {
                if !self.open_next()? {
                    break;
                }
                if self.last != b'\n' {
                    self.last = b'\n';
                    return Ok(put_newline(buf));
                }
            }
            let count = self.read_open(buf)?;
            if count > 0 {
                return Ok(count);
            }
            self.source = None;
        }
        Ok(0)
    }

    fn read_open(&mut self, buf: &mut [u8]) -> Result<usize, Trouble>
        ensures { ReadsAtMost result buf.new }
    {
        let (count, may_be_packed) = match &mut self.source {
            Some(Source::File(file)) => (file.read(buf)?, true),
            Some(Source::Standard(stdin)) => (stdin.read(buf)?, false),
            None => return Ok(0),
        };
        let bytes = buf.get(..count).unwrap_or(&[]);
        if self.is_new && may_be_packed && bytes.starts_with(&[0x1f, 0x8b]) {
            return Err(Trouble::Packed);
        }
        self.is_new = false;
        if let Some(last) = bytes.last() {
            self.last = *last;
        }
        Ok(count)
    }
}

// Returns how many bytes were written.
fn put_newline(buf: &mut [u8]) -> usize
    ensures { result ≤ length buf.new }
{
    match buf.first_mut() {
        Some(first) => {
            *first = b'\n';
            1
        }
        None => 0,
    }
}

impl<'h> Read for InputFiles<'h> {
    fn read(&mut self, buf: &mut [u8]) -> io::Result<usize> {
        match self.read_next(buf) {
            Ok(count) => Ok(count),
            Err(trouble) => {
                self.trouble = Some(trouble);
                Err(io::Error::from(ErrorKind::Other))
            }
        }
    }
}

// Why a file cannot be read, if that is known. (what is no regular file is opened once only, since a pipe's writer notes it)
fn trouble_of(rt: &HostRuntime, path: &str) -> Option<Trouble> {
    if is_standard(path) {
        return None;
    }
    match opened_once(rt, path) {
        Ok(()) => None,
        Err(trouble) => Some(trouble),
    }
}

fn opened_once(rt: &HostRuntime, path: &str) -> Result<(), Trouble> {
    let about = fs::metadata(rt, path)?;
    if about.is_dir() {
        return Err(Trouble::Directory);
    }
    if about.is_file() {
        let _file = File::open(rt, path)?;
    }
    Ok(())
}

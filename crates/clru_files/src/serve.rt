//! Serves paths one after the other.
ghost use Rattle.std.specs.Prelude.{◌≡◌, ◌+◌, ◌-◌, [], ◌∷◌, ◌++◌, ℕ, IfNone, IfOk, IfSome, IsErr, IsFalse, IsSomeAnd, IsTrue, List, None, Ok, OnOk, count_by, false, flat_map, is_some, length, not, true};
ghost use Rattle.clru_text.specs.Lines.{lines_of};
ghost use Rattle.clru_through.specs.Given.{was_fetched};
ghost use Rattle.clru_through.specs.declared.answer.Loaded.TheVariants.{Held};
ghost use Rattle.clru_through.specs.Store.{AllKeep};
ghost use Rattle.clru_files.specs.Serving.{is_hit, is_fetch, is_no_text, is_failure, line_of, AreServed, AreCounted};
ghost use Rattle.clru_files.specs.Reading.{IsRecent, WasRead, Timed, AreRecent};
ghost use Rattle.std.specs.declared.time.Duration.{Duration};
ghost use Rattle.clru_files.specs.declared.freshness.Freshness.TheVariants.{WhileHeld, Within};
ghost use Rattle.std.specs.Io.KnownBytes.{Appends};
ghost use Rattle.std.specs.Map.{lookup};
ghost use Rattle.std.specs.Str.{bytes_eq, is_utf8};
ghost use Rattle.std.specs.String.{string_bytes, string_eq};

use crate::checksum::checksum;
use crate::counts::Counts;
use crate::fault::Fault;
use crate::folder::{Folder, Page, Stat};
use crate::freshness::Freshness;
use crate::served::{PageSummary, Served};
use crate::timer::Timer;
use clru::{CLruCache, DefaultState, NonZeroUsize, WeightScale};
use clru_text::next_line;
use clru_through::{ByPromise, Loaded, Through};
use std::alloc::Global;
use std::fs::Files;
use std::io::{self, Write};
use std::time::{Duration, Instant};

/// The scale of pages. Beside the 1 of its entry a page weighs one less than its bytes, so it takes as much of the capacity as
/// it has bytes; an empty page takes 1.
#[derive(Clone, Copy)]
pub struct ByBytes;

impl WeightScale<String, Page> for ByBytes {
    ghost weight = { λ _ _ page. length page.bytes.items - 1 };

    fn weight(&self, _path: &String, page: &Page) -> usize {
        page.bytes.len().saturating_sub(1)
    }
}

/// The pages that were requested last.
pub type Pages<'f, R> = Through<
    String,
    Page,
    Fault,
    Folder<'f, R>,
    DefaultState,
    ByBytes,
    Global,
    ByPromise,
>;

/// Creates a store of the pages of a folder, with room for so many bytes, which holds none.
pub fn pages_of<'f, R: Files>(
    alloc: Global,
    capacity: NonZeroUsize,
    folder: Folder<'f, R>,
) -> Pages<'f, R>
    ensures { result.cache.entries ≡ [] }
{
    Through::new(CLruCache::with_scale(alloc, capacity, ByBytes), folder)
}

/// Serves a request, by how long a held page answers, and returns what became of it. A failed one leaves what is held.
fn serve<'f, R: Files>(
    pages: &mut Pages<'f, R>,
    alloc: Global,
    line: &[u8],
    freshness: Freshness,
    now: Instant,
) -> Served
    ensures hit { is_hit result ≡ true →
        is_some (lookup (λ path. bytes_eq line.now (string_bytes path)) pages.old.cache.entries) ≡ true }
    ensures fetch { freshness ≡ WhileHeld → is_fetch result ≡ true →
        lookup (λ path. bytes_eq line.now (string_bytes path)) pages.old.cache.entries ≡ None }
    ensures recent { (limit : Duration) → freshness ≡ Within limit → is_hit result ≡ true →
        IfSome (lookup (λ path. bytes_eq line.now (string_bytes path)) pages.old.cache.entries) (IsRecent limit now) }
    ensures stale { (limit : Duration) → freshness ≡ Within limit → is_fetch result ≡ true →
        IfSome (lookup (λ path. bytes_eq line.now (string_bytes path)) pages.old.cache.entries)
        (λ page. ¬ (IsRecent limit now page)) }
    ensures read { (limit : Duration) → freshness ≡ Within limit → (done : List Timed) →
        AllKeep (WasRead done) string_bytes pages.old.cache.entries →
        AllKeep (WasRead (done ++ (now, (line.now, result)) ∷ [])) string_bytes pages.new.cache.entries }
    ensures no_text { is_no_text result ≡ not (is_utf8 line.now) }
    ensures failure { is_failure result ≡ true → pages.new.cache.entries ≡ pages.old.cache.entries }
{
    match freshness {
        Freshness::WhileHeld => serve_held(pages, alloc, line),
        Freshness::WhileUnchanged => serve_by_stat(pages, alloc, line),
        Freshness::Within(limit) => serve_by_age(pages, alloc, line, now, limit),
    }
}

/// Reads a held page again if it was read longer ago than the limit.
fn serve_by_age<'f, R: Files>(
    pages: &mut Pages<'f, R>,
    alloc: Global,
    line: &[u8],
    now: Instant,
    limit: Duration,
) -> Served
    ensures hit { is_hit result ≡ true →
        IsSomeAnd (lookup (λ path. bytes_eq line.now (string_bytes path)) pages.old.cache.entries) (IsRecent limit now) }
    ensures fetch { is_fetch result ≡ true →
        IfSome (lookup (λ path. bytes_eq line.now (string_bytes path)) pages.old.cache.entries)
        (λ page. ¬ (IsRecent limit now page)) }
    ensures read { (done : List Timed) → AllKeep (WasRead done) string_bytes pages.old.cache.entries →
        AllKeep (WasRead (done ++ (now, (line.now, result)) ∷ [])) string_bytes pages.new.cache.entries }
    ensures no_text { is_no_text result ≡ not (is_utf8 line.now) }
    ensures failure { is_failure result ≡ true → pages.new.cache.entries ≡ pages.old.cache.entries }
{
    let Some(path) = path_of(line) else {
        return Served::NoText;
    };
    let Ok(key) = String::from_str(alloc, path) else {
        return Served::NoMemory;
    };
    serve_within(pages, key, now, limit)
}

/// Serves a path, by a held page only if that was read within the limit.
fn serve_within<'f, R: Files>(
    pages: &mut Pages<'f, R>,
    path: String,
    now: Instant,
    limit: Duration,
) -> Served
    ensures hit { is_hit result ≡ true →
        IsSomeAnd (lookup (string_eq path) pages.old.cache.entries) (IsRecent limit now) }
    ensures fetch { is_fetch result ≡ true →
        IfSome (lookup (string_eq path) pages.old.cache.entries) (λ page. ¬ (IsRecent limit now page)) }
    ensures read { (done : List Timed) → AllKeep (WasRead done) string_bytes pages.old.cache.entries →
        AllKeep (WasRead (done ++ (now, (string_bytes path, result)) ∷ [])) string_bytes pages.new.cache.entries }
    ensures asked { is_no_text result ≡ false }
    ensures failure { is_failure result ≡ true → pages.new.cache.entries ≡ pages.old.cache.entries }
{
    if has_recent(pages, &path, now, limit) {
        let loaded = pages.load(path);
        return served_of(pages, loaded);
    }
    read_again(pages, path, now)
}

/// Returns whether a page is held that was read within the limit.
fn has_recent<'f, R: Files>(
    pages: &Pages<'f, R>,
    path: &String,
    now: Instant,
    limit: Duration,
) -> bool
    ensures recent { IsTrue result →
        IsSomeAnd (lookup (string_eq path.now) pages.now.cache.entries) (IsRecent limit now) }
    ensures stale { IsFalse result →
        IfSome (lookup (string_eq path.now) pages.now.cache.entries) (λ page. ¬ (IsRecent limit now page)) }
{
    match pages.peek(path) {
        Some(page) => page.is_recent(now, limit),
        None => false,
    }
}

/// Reads the file of a path now, and holds its page unless there is no memory for it.
fn read_again<'f, R: Files>(pages: &mut Pages<'f, R>, path: String, now: Instant) -> Served
    ensures fetch { is_fetch result ≡ true }
    ensures read { (done : List Timed) → AllKeep (WasRead done) string_bytes pages.old.cache.entries →
        AllKeep (WasRead (done ++ (now, (string_bytes path, result)) ∷ [])) string_bytes pages.new.cache.entries }
    ensures failure { is_failure result ≡ true → pages.new.cache.entries ≡ pages.old.cache.entries }
{
    match pages.source().page_at(path.as_str(), now) {
        Ok(page) => {
            let summary = summary_of(&page);
            let _ = pages.put(path, page);
            Served::Fetched(Ok(summary))
        }
        Err(fault) => Served::Fetched(Err(fault)),
    }
}

/// Reads a held page again if its file says something else of itself now.
fn serve_by_stat<'f, R: Files>(pages: &mut Pages<'f, R>, alloc: Global, line: &[u8]) -> Served
    ensures hit { is_hit result ≡ true →
        is_some (lookup (λ path. bytes_eq line.now (string_bytes path)) pages.old.cache.entries) ≡ true }
    ensures no_text { is_no_text result ≡ not (is_utf8 line.now) }
    ensures failure { is_failure result ≡ true → pages.new.cache.entries ≡ pages.old.cache.entries }
{
    let Some(path) = path_of(line) else {
        return Served::NoText;
    };
    let Ok(key) = String::from_str(alloc, path) else {
        return Served::NoMemory;
    };
    match pages.source().stat_of(path) {
        Ok(stat) => serve_at(pages, key, stat),
        Err(_) => {
            let loaded = pages.refresh(key);
            served_of(pages, loaded)
        }
    }
}

/// Serves a path whose file says this of itself. A held page is read again if the file said something else then.
fn serve_at<'f, R: Files>(pages: &mut Pages<'f, R>, path: String, stat: Stat) -> Served
    ensures hit { is_hit result ≡ true →
        IsSomeAnd (lookup (string_eq path) pages.old.cache.entries) (λ page. page.stat ≡ stat) }
    ensures fetch { is_fetch result ≡ true →
        IfSome (lookup (string_eq path) pages.old.cache.entries) (λ page. ¬ (page.stat ≡ stat)) }
    ensures asked { is_no_text result ≡ false }
    ensures failure { is_failure result ≡ true → pages.new.cache.entries ≡ pages.old.cache.entries }
{
    let loaded = pages.load_unless(path, |_, page| !page.is_of(stat));
    served_of(pages, loaded)
}

/// Returns what became of a load.
fn served_of<'f, R: Files>(pages: &Pages<'f, R>, loaded: Result<Loaded<Page>, Fault>) -> Served
    ensures hit { is_hit result ≡ true → loaded ≡ Ok (Held false) }
    ensures fetch { is_fetch result ≡ true → IfOk loaded (λ one. was_fetched one ≡ true) }
    ensures asked { is_no_text result ≡ false }
    ensures failure { is_failure result ≡ true → IsErr loaded }
{
    match loaded {
        Err(fault) => Served::Fetched(Err(fault)),
        Ok(Loaded::Passed(page)) => Served::Fetched(Ok(summary_of(&page))),
        Ok(Loaded::Held { fetched: true }) => Served::Fetched(Ok(front_summary(pages))),
        Ok(Loaded::Held { fetched: false }) => Served::Hit(front_summary(pages)),
    }
}

/// The page of the path that a line is. What is held is read from no file, and a request that fails leaves what is held.
fn serve_held<'f, R: Files>(pages: &mut Pages<'f, R>, alloc: Global, line: &[u8]) -> Served
    ensures hit { is_hit result ≡ true →
        is_some (lookup (λ path. bytes_eq line.now (string_bytes path)) pages.old.cache.entries) ≡ true }
    ensures fetch { is_fetch result ≡ true →
        lookup (λ path. bytes_eq line.now (string_bytes path)) pages.old.cache.entries ≡ None }
    ensures no_text { is_no_text result ≡ not (is_utf8 line.now) }
    ensures failure { is_failure result ≡ true → pages.new.cache.entries ≡ pages.old.cache.entries }
{
    let Some(path) = path_of(line) else {
        return Served::NoText;
    };
    if let Some(page) = pages.hit(path) {
        return Served::Hit(summary_of(page));
    }
    let Ok(key) = String::from_str(alloc, path) else {
        return Served::NoMemory;
    };
    match pages.load(key) {
        Err(fault) => Served::Fetched(Err(fault)),
        Ok(Loaded::Passed(page)) => Served::Fetched(Ok(summary_of(&page))),
        Ok(Loaded::Held { .. }) => Served::Fetched(Ok(front_summary(pages))),
    }
}

/// The path that a line is, unless it is no text.
fn path_of(line: &[u8]) -> Option<&str>
    ensures path { IfSome result (λ path. path.now ≡ line.now) }
    ensures text { IfSome result (λ _. is_utf8 line.now ≡ true) }
    ensures no_text { IfNone result (is_utf8 line.now ≡ false) }
{
    match str::from_utf8(line) {
        Ok(path) => Some(path),
        Err(_) => None,
    }
}

/// Returns the summary of the page that was asked for last.
fn front_summary<'f, R: Files>(pages: &Pages<'f, R>) -> PageSummary {
    match pages.front() {
        Some((_, page)) => summary_of(page),
        // (it is called where one is held, so this is not met)
        None => PageSummary {
            length: 0,
            checksum: 0,
        },
    }
}

fn summary_of(page: &Page) -> PageSummary {
    PageSummary {
        length: page.bytes.len(),
        checksum: checksum(&page.bytes),
    }
}

/// Writes the line of a request.
fn write_served<W: Write>(
    output: &mut W,
    alloc: Global,
    line: &[u8],
    served: Served,
) -> io::Result<()>
    ensures { OnOk result (Appends (W.contents output.old) (W.contents output.new) (line_of (line.now, served))) }
{
    let path = String::from_utf8_lossy(alloc, line)?;
    writeln!(output, "{path}: {served}")
}

/// Serves the path of each line, and writes a line of each.
pub fn run<'f, R: Files, T: Timer, W: Write>(
    pages: &mut Pages<'f, R>,
    alloc: Global,
    input: &[u8],
    freshness: Freshness,
    timer: &mut T,
    output: &mut W,
) -> io::Result<Counts>
    ensures paths { IfOk result (λ c. c.hits + c.fetches + c.no_memory ≡ count_by is_utf8 (lines_of input.now)) }
    ensures others { IfOk result (λ c. c.no_text ≡ count_by (λ line. not (is_utf8 line)) (lines_of input.now)) }
    ensures written { IfOk result (λ c. (requests : List (List ℕ × Served)) × AreServed input.now requests
        × AreCounted requests c × Appends (W.contents output.old) (W.contents output.new) (flat_map line_of requests)
        × ((limit : Duration) → freshness ≡ Within limit → pages.old.cache.entries ≡ [] →
        AreRecent T.reads limit requests timer.old timer.new)) }
{
    let mut counts = Counts::new();
    let mut left = input;
    'lines: while let Some((line, rest)) = next_line(left) {
        let now = timer.read()?;
        let served = serve(pages, alloc, line, freshness, now);
        counts.add(served);
        write_served(output, alloc, line, served)?;
        left = rest;
    }
    Ok(counts)
}

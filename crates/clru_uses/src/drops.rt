//! Callers that are handed what a put drops.
ghost use Rattle.std.specs.Prelude.{◌≡◌, nat_eq, length, set, IfOk, OnOk, OnErr};
ghost use Rattle.std.specs.Option.{option_map, option_map_or};
ghost use Rattle.clru_model.specs.Entries.{plain_drop, weighted_drops};

use clru::{CLruCache, DefaultState, PutError, WeightScale};

/// Remembers the contents of a page. A page that is forgotten for it is written back to the disk, and answered.
pub fn write_back(
    pages: &mut CLruCache<usize, u64>,
    disk: &mut [u64],
    page: usize,
    contents: u64,
) -> Result<Option<usize>, (usize, u64)>
    ensures which { let lost = plain_drop nat_eq pages.old.capacity page pages.old.entries in
        IfOk result (λ answer. answer ≡ option_map (λ e. e.0) lost) }
    ensures written { let lost = plain_drop nat_eq pages.old.capacity page pages.old.entries in
        OnOk result (disk.new ≡ option_map_or (λ e. set disk.old e.0 e.1) lost disk.old) }
    ensures untouched { OnErr result (disk.new ≡ disk.old) }
{
    match pages.put(page, contents) {
        Ok(put) => match put.dropped {
            Some((lost, old)) => {
                write(disk, lost, old);
                Ok(Some(lost))
            }
            None => Ok(None),
        },
        Err(pair) => Err(pair),
    }
}

/// Writes the contents of a page to the disk, if it has that page.
fn write(disk: &mut [u64], page: usize, contents: u64)
    ensures { disk.new ≡ set disk.old page contents }
{
    if page < disk.len() {
        disk[page] = contents;
    }
}

/// Remembers the size of a page by a scale, and returns how many pages were forgotten for it.
pub fn number_forgotten<W: WeightScale<u64, u64>>(
    sizes: &mut CLruCache<u64, u64, DefaultState, W>,
    page: u64,
    size: u64,
) -> Result<usize, PutError<u64, u64>>
    ensures number { let weight = W.weight sizes.old.scale in IfOk result
        (λ n. n ≡ length (weighted_drops nat_eq weight sizes.old.capacity page size sizes.old.entries)) }
{
    // Its answer is a `usize`, so there are fewer than 2^64 entries.
    let _ = sizes.len();
    let mut number = 0usize;
    match sizes.put_with_weight_handing_to(page, size, &mut |_, _| number += 1) {
        Ok(_) => Ok(number),
        Err(refusal) => Err(refusal),
    }
}

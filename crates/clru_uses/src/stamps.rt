//! A cache that is kept to a rule of its caller's: each page is held with a stamp of its number and its text, and each stamp is
//! true after each call.
ghost use Rattle.std.specs.Prelude.{◌≡◌, ◌+◌, ◌%◌, ◌^◌, IfSome};
ghost use Rattle.std.specs.List.{All};
ghost use Rattle.clru_uses.specs.Stamps.{HasTrueStamp};

use clru::{CLruCache, PutError};

/// A text, which here is a number, with its stamp.
#[derive(Clone, Copy, Drop)]
pub struct Stamped {
    pub text: u64,
    pub stamp: u64,
}

/// Returns a page's text with its stamp.
pub fn with_stamp(page: u64, text: u64) -> Stamped
    ensures { result.stamp ≡ (page + result.text) % 2 ^ 64 }
{
    Stamped {
        text,
        stamp: page.wrapping_add(text),
    }
}

/// Puts a page with its stamp. Returns the pair for which memory was refused.
pub fn put_stamped(
    cache: &mut CLruCache<u64, Stamped>,
    page: u64,
    text: u64,
) -> Result<(), (u64, Stamped)>
    requires { All HasTrueStamp cache.old.entries }
    ensures { All HasTrueStamp cache.new.entries }
{
    cache.put(page, with_stamp(page, text))?;
    Ok(())
}

/// Puts a page with its stamp by its weight.
pub fn put_stamped_by_weight(
    cache: &mut CLruCache<u64, Stamped>,
    page: u64,
    text: u64,
) -> Result<(), PutError<u64, Stamped>>
    requires { All HasTrueStamp cache.old.entries }
    ensures { All HasTrueStamp cache.new.entries }
{
    cache.put_with_weight(page, with_stamp(page, text), |_, _| {})?;
    Ok(())
}

/// Looks a page up, and returns its text with a stamp that need not be compared.
pub fn look_for_stamped(cache: &mut CLruCache<u64, Stamped>, page: u64) -> Option<Stamped>
    requires { All HasTrueStamp cache.old.entries }
    ensures found { IfSome result (λ found. found.stamp ≡ (page + found.text) % 2 ^ 64) }
    ensures stamps { All HasTrueStamp cache.new.entries }
{
    cache.get(&page).copied()
}

/// Forgets a page, and returns its text with its stamp.
pub fn forget_stamped(cache: &mut CLruCache<u64, Stamped>, page: u64) -> Option<Stamped>
    requires { All HasTrueStamp cache.old.entries }
    ensures found { IfSome result (λ found. found.stamp ≡ (page + found.text) % 2 ^ 64) }
    ensures stamps { All HasTrueStamp cache.new.entries }
{
    cache.pop(&page)
}

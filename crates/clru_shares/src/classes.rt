//! A pass for each class.
ghost use Rattle.std.specs.Prelude.{◌≡◌, ◌≤◌, ℕ, Bool, List, [], ◌∷◌, ◌++◌, length, map, ◌<◌, true, false, IfErr, IfOk, OnOk};
ghost use Rattle.clru_text.specs.Keys.{line_of};
ghost use Rattle.clru_text.specs.TakenRequests.{shown_of};
ghost use Rattle.clru_text.specs.declared.lines.OwnedKey.{OwnedKey};
ghost use Rattle.clru_shares.specs.Classes.{AreAscending, class_in, most_classes, of_class, requests_of};
ghost use Rattle.clru_shares.specs.Passes.{BelongsAt, HasTaken, HaveTaken, IsHeldAt, IsPlaceOf, name_of, next_kept};
ghost use Rattle.clru_shares.specs.Places.{IsAskedOf};
ghost use Rattle.clru_shares.specs.Sizes.{own_size};

use crate::pass::{Asked, LinePass, empty_pass, take_kept};
use crate::sampled::next_number;
use std::alloc::{AllocError, Allocator};
use std::cmp::Ordering;

/// More classes than these are refused.
pub(crate) const MOST_CLASSES: usize = 256;

/// A class: the pass over those of its lines that are kept, how many these are, how many there are in all, and by size the size of all.
#[derive(Drop)]
pub(crate) struct Class<A: Allocator + Copy> {
    pub(crate) name: Vec<u8, A>,
    pub(crate) requests: usize,
    pub(crate) size: usize,
    pub(crate) kept: usize,
    pub(crate) pass: LinePass<A>,
}

/// Returns where the class is among the others, or else where it belongs.
pub(crate) fn place_of<A: Allocator + Copy>(
    classes: &[Class<A>],
    name: &[u8],
) -> Result<usize, usize>
    requires { AreAscending (map name_of classes.now) }
    ensures held { IfOk result (λ at. IsHeldAt (map name_of classes.now) name.now at) }
    ensures missing { IfErr result (λ at. BelongsAt (map name_of classes.now) name.now at) }
{
    for at in 0..classes.len() {
        match classes[at].name.as_slice().cmp(name) {
            Ordering::Less => {}
            Ordering::Equal => return Ok(at),
            Ordering::Greater => return Err(at),
        }
    }
    Err(classes.len())
}

/// Returns how many lines of the class were kept, from where it is or belongs.
pub(crate) fn kept_at<A: Allocator + Copy>(
    classes: &[Class<A>],
    place: Result<usize, usize>,
) -> usize
    requires { IfOk place (λ at. at < length classes.now) }
    ensures { (sizes : Bool) (limit : ℕ) (lines : List (List ℕ)) (kept : List (List ℕ × ℕ)) (name : List ℕ)
        → HaveTaken sizes limit lines kept classes.now
        → IsPlaceOf (map name_of classes.now) name place → result ≡ length (of_class name kept) }
{
    match place {
        Ok(at) => classes[at].kept,
        Err(_) => 0,
    }
}

/// Counts one more line of a class, which is or belongs at this place, and takes its request if it is kept. Returns whether there
/// was room for the class.
pub(crate) fn take_classed<A: Allocator + Copy>(
    alloc: A,
    sizes: bool,
    classes: &mut Vec<Class<A>, A>,
    place: Result<usize, usize>,
    name: &[u8],
    is_kept: bool,
    asked: Asked,
) -> Result<bool, AllocError>
    requires place { IsPlaceOf (map name_of classes.old.items) name.now place }
    requires taken { (limit : ℕ) × (lines : List (List ℕ)) × (kept : List (List ℕ × ℕ)) × (request : OwnedKey A × ℕ)
        × HaveTaken sizes limit lines kept classes.old.items × (asked.size ≡ own_size sizes (line_of request.0))
        × (is_kept ≡ true → IsAskedOf limit (of_class name.now kept) (shown_of request) asked) }
    ensures taken { (limit : ℕ) (lines : List (List ℕ)) (kept : List (List ℕ × ℕ)) (request : OwnedKey A × ℕ)
        → HaveTaken sizes limit lines kept classes.old.items → asked.size ≡ own_size sizes (line_of request.0)
        → (is_kept ≡ true → IsAskedOf limit (of_class name.now kept) (shown_of request) asked)
        → name.now ≡ class_in (line_of request.0)
        → IfOk result (λ has_room. has_room ≡ true → HaveTaken sizes limit (lines ++ line_of request.0 ∷ [])
        (next_kept is_kept kept (shown_of request)) classes.new.items) }
    ensures full { IfOk result (λ has_room. has_room ≡ false
        → (most_classes ≤ length classes.old.items) × ((at : ℕ) × BelongsAt (map name_of classes.old.items) name.now at)) }
    ensures few { IfOk result (λ has_room. has_room ≡ true → length classes.old.items ≤ most_classes
        → length classes.new.items ≤ most_classes) }
{
    match place {
        Ok(at) => {
            take_line(&mut classes[at], is_kept, asked)?;
            Ok(true)
        }
        Err(at) => {
            if classes.len() >= MOST_CLASSES {
                return Ok(false);
            }
            let class = class_with(alloc, sizes, name, is_kept, asked)?;
            match classes.insert(at, class) {
                Ok(()) => Ok(true),
                Err(_) => Err(AllocError),
            }
        }
    }
}

// A class with this line, its first.
fn class_with<A: Allocator + Copy>(
    alloc: A,
    sizes: bool,
    name: &[u8],
    is_kept: bool,
    asked: Asked,
) -> Result<Class<A>, AllocError>
    requires { (limit : ℕ) × (request : OwnedKey A × ℕ) × (asked.size ≡ own_size sizes (line_of request.0))
        × (is_kept ≡ true → IsAskedOf limit [] (shown_of request) asked) }
    ensures name { IfOk result (λ class. name_of class ≡ name.now) }
    ensures taken { (limit : ℕ) (lines : List (List ℕ)) (kept : List (List ℕ × ℕ)) (request : OwnedKey A × ℕ)
        → requests_of name.now lines ≡ [] → of_class name.now kept ≡ [] → asked.size ≡ own_size sizes (line_of request.0)
        → (is_kept ≡ true → IsAskedOf limit [] (shown_of request) asked) → name.now ≡ class_in (line_of request.0)
        → IfOk result (HasTaken sizes limit (lines ++ line_of request.0 ∷ []) (next_kept is_kept kept (shown_of request))) }
    ensures some { IfOk result (λ class. 0 < class.requests) }
{
    let mut class = Class {
        name: Vec::from_slice(alloc, name)?,
        requests: 0,
        size: 0,
        kept: 0,
        pass: empty_pass(alloc, sizes),
    };
    take_line(&mut class, is_kept, asked)?;
    Ok(class)
}

// Counts one more line of this class, and takes its request if it is kept.
fn take_line<A: Allocator + Copy>(
    class: &mut Class<A>,
    is_kept: bool,
    asked: Asked,
) -> Result<(), AllocError>
    requires { (sizes : Bool) × (limit : ℕ) × (lines : List (List ℕ)) × (kept : List (List ℕ × ℕ)) × (request : OwnedKey A × ℕ)
        × HasTaken sizes limit lines kept class.old × (asked.size ≡ own_size sizes (line_of request.0))
        × (is_kept ≡ true → IsAskedOf limit (of_class (name_of class.old) kept) (shown_of request) asked) }
    ensures name { name_of class.new ≡ name_of class.old }
    ensures taken { (sizes : Bool) (limit : ℕ) (lines : List (List ℕ)) (kept : List (List ℕ × ℕ)) (request : OwnedKey A × ℕ)
        → HasTaken sizes limit lines kept class.old → asked.size ≡ own_size sizes (line_of request.0)
        → (is_kept ≡ true → IsAskedOf limit (of_class (name_of class.old) kept) (shown_of request) asked)
        → name_of class.old ≡ class_in (line_of request.0)
        → OnOk result (HasTaken sizes limit (lines ++ line_of request.0 ∷ [])
        (next_kept is_kept kept (shown_of request)) class.new) }
    ensures some { OnOk result (0 < class.new.requests) }
{
    let Some(requests) = class.requests.checked_add(1) else {
        return Err(AllocError);
    };
    let Some(total) = class.size.checked_add(asked.size) else {
        return Err(AllocError);
    };
    take_kept(is_kept, &mut class.pass, asked)?;
    class.kept = next_number(is_kept, class.kept);
    class.requests = requests;
    class.size = total;
    Ok(())
}

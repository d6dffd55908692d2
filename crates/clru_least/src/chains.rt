//! Finds the next request of each key by chains of requests.
//!
//! While a key is not requested again, the number of its latest request is free: it links to an earlier one, the latest request of another
//! key of the same bucket. So the chain of a bucket takes no memory but where it begins. A number above its own position is that of the next
//! request; any other is a link: a position and 1, or 0 at the end.
ghost use Rattle.std.specs.Prelude.{◌≡◌, ℕ, List, ◌+◌, ◌-◌, ◌^◌, ◌<◌, ◌≤◌, ◌==◌, true, length, reverse, set, if◌then◌else◌, Some, IfOk};
ghost use Rattle.std.specs.List.{slice_get};
ghost use Rattle.clru_list.specs.Packed.{greatest_by};
ghost use Rattle.clru_least.specs.Chains.{HasRoom, IsChain, IsWalked, masked_bucket, cut_out, first_behind, next_in, number_in, same_at};
ghost use Rattle.clru_least.specs.Passes.{IsForesight};

use clru_list::{NARROW, PackedNumbers};
use std::alloc::{AllocError, Allocator};
use std::hash::{BuildHasher, Hash};

/// The numbers of the requests, and where the chain of each bucket begins: at a position and 1, or 0 if it is empty.
#[derive(Drop)]
pub(crate) struct Chains<A: Allocator + Copy> {
    pub(crate) numbers: PackedNumbers<A>,
    pub(crate) firsts: PackedNumbers<A>,
    pub(crate) mask: usize,
}

impl<A: Allocator + Copy> Chains<A> {
    /// Empty chains for so many requests. There is a bucket for each two to four of them.
    fn with_room(alloc: A, requests: usize) -> Result<Self, AllocError>
        requires { 0 < requests }
        ensures room { IfOk result (HasRoom requests) }
        ensures blank { IfOk result (λ c. (p : ℕ) → number_in c.numbers.numbers p ≡ 0) }
        ensures empty { IfOk result (λ c. (h : ℕ) → number_in c.firsts.numbers h ≡ 0) }
        ensures narrow { requests < 2 ^ 32 → IfOk result (λ c. c.numbers.greatest ≡ greatest_by true) }
    {
        let is_narrow = requests <= NARROW;
        let buckets = (requests / 4 + 2).next_power_of_two();
        let firsts = PackedNumbers::zeros(alloc, buckets, is_narrow)?;
        let numbers = PackedNumbers::zeros(alloc, requests, is_narrow)?;
        Ok(Chains {
            numbers,
            firsts,
            mask: buckets - 1,
        })
    }

    /// The bucket of a hash.
    #[tactic(auto, using(std::proofs::lemmas::Nat::and_le_r))]
    fn bucket_of(&self, hash: u64) -> usize
        ensures bucket { result ≡ masked_bucket self.now.mask hash }
        ensures within { result ≤ self.now.mask }
    {
        hash as usize & self.mask
    }

    /// Walks along the chain that begins with `first` to a request for the same key as the one at `position`. Returns the number of the last
    /// request that it passed, and of the one that it found; each is 0 if there is none.
    #[inline(always)]
    fn find<K: Eq>(&self, keys: &[K], position: usize, first: usize) -> (usize, usize)
        requires position { position < length keys.now }
        requires room { length self.now.numbers.numbers ≡ length keys.now }
        requires chain { (chain : List ℕ) × IsChain (number_in self.now.numbers.numbers) first position chain }
        ensures sought { (chain : List ℕ) (x : K) → IsChain (number_in self.now.numbers.numbers) first position chain
            → slice_get keys.now position ≡ Some x
            → IsWalked K.eq keys.now (number_in self.now.numbers.numbers) x chain result.0 result.1 }
        ensures same { (x : K) → slice_get keys.now position ≡ Some x → 0 < result.1
            → same_at K.eq keys.now x (result.1 - 1) ≡ true }
        ensures behind { result.0 ≤ position }
        ensures found { result.1 ≤ position }
        ensures link { 0 < result.1 → number_in self.now.numbers.numbers (result.1 - 1) < result.1 }
    {
        let mut behind = 0;
        let mut number = first;
        'chain: while number != 0 && keys[position] != keys[number - 1] {
            behind = number;
            number = self.numbers.get(number - 1);
        }
        (behind, number)
    }

    /// Puts a request in front of the chain of its bucket. The one that `find` found leaves the chain, and has this one as its next.
    #[inline(always)]
    fn link(&mut self, bucket: usize, position: usize, behind: usize, number: usize)
        requires room { HasRoom (length self.old.numbers.numbers) self.old }
        requires countable { length self.old.numbers.numbers < 2 ^ 64 }
        requires bucket { bucket ≤ self.old.mask }
        requires position { position < length self.old.numbers.numbers }
        requires found { number ≤ position }
        requires behind { behind ≤ position }
        requires first { number_in self.old.firsts.numbers bucket ≤ position }
        requires link { 0 < number → number_in self.old.numbers.numbers (number - 1) < number }
        ensures room { HasRoom (length self.old.numbers.numbers) self.new }
        ensures here { number_in self.old.numbers.numbers position ≡ 0 → number_in self.new.numbers.numbers position
            ≡ (if number == 0 then number_in self.old.firsts.numbers bucket
            else first_behind self.old.numbers.numbers (number_in self.old.firsts.numbers bucket) behind number) }
        ensures others { (p : ℕ) → (p ≡ position → ⊥) → number_in self.new.numbers.numbers p
            ≡ (if number == 0 then number_in self.old.numbers.numbers p
            else number_in (cut_out self.old.numbers.numbers behind number position) p) }
        ensures firsts { self.new.firsts.numbers ≡ set self.old.firsts.numbers bucket (position + 1) }
        ensures mask { self.new.mask ≡ self.old.mask }
        ensures greatest { self.new.numbers.greatest ≡ self.old.numbers.greatest }
    {
        let first = self.firsts.get(bucket);
        let front = if number == 0 {
            first
        } else {
            cut(&mut self.numbers, first, behind, number, position)
        };
        if front > 0 {
            self.numbers.set(position, front);
        }
        self.firsts.set(bucket, position + 1);
    }
}

/// Cuts a position out of its chain: its number becomes that of its next request, and the position before it links past it. Returns where
/// the chain begins then.
#[inline(always)]
fn cut<A: Allocator + Copy>(
    numbers: &mut PackedNumbers<A>,
    first: usize,
    behind: usize,
    number: usize,
    next: usize,
) -> usize
    requires number { 0 < number }
    requires within { next < length numbers.old.numbers }
    requires found { number ≤ next }
    requires behind { behind ≤ next }
    requires fits { next ≤ numbers.old.greatest }
    ensures first { result ≡ first_behind numbers.old.numbers first behind number }
    ensures numbers { numbers.new.numbers ≡ cut_out numbers.old.numbers behind number next }
    ensures greatest { numbers.new.greatest ≡ numbers.old.greatest }
{
    let link = numbers.get(number - 1);
    numbers.set(number - 1, next);
    if behind == 0 {
        return link;
    }
    numbers.set(behind - 1, link);
    first
}

/// Writes 0 over each link.
fn forget_links<A: Allocator + Copy>(numbers: &mut PackedNumbers<A>)
    ensures length { length numbers.new.numbers ≡ length numbers.old.numbers }
    ensures next { (p : ℕ) → p < length numbers.old.numbers
        → number_in numbers.new.numbers p ≡ next_in numbers.old.numbers p }
    ensures greatest { numbers.new.greatest ≡ numbers.old.greatest }
{
    for position in 0..numbers.len() {
        let number = numbers.get(position);
        if 0 < number && number <= position {
            numbers.set(position, 0);
        }
    }
}

/// Returns for each request the position of the next one of its key, and 0 where there is none.
pub(crate) fn next_requests<K: Eq + Hash, S: BuildHasher, A: Allocator + Copy>(
    alloc: A,
    keys: &[K],
    hash_builder: &S,
) -> Result<PackedNumbers<A>, AllocError>
    requires some { 0 < length keys.now }
    ensures foresight { IfOk result (λ n. IsForesight K.eq (reverse keys.now) n.numbers) }
    ensures narrow { IfOk result (λ n. length n.numbers < 2 ^ 32 → n.greatest ≡ greatest_by true) }
{
    let mut chains = Chains::with_room(alloc, keys.len())?;
    for position in 0..keys.len() {
        let bucket = chains.bucket_of(hash_builder.hash_one(&keys[position]));
        let first = chains.firsts.get(bucket);
        let (behind, number) = chains.find(keys, position, first);
        chains.link(bucket, position, behind, number);
    }
    let Chains {
        mut numbers,
        firsts,
        mask: _,
    } = chains;
    drop(firsts);
    forget_links(&mut numbers);
    Ok(numbers)
}

//! The calls whose closures make or change the value.
ghost use Rattle.std.specs.Prelude.{◌≡◌, None, Some, IfOk, IfErr, IsErr};
ghost use Rattle.std.specs.Borrow.{sem};
ghost use Rattle.std.specs.Map.{lookup_entry};
ghost use Rattle.clru_model.specs.Refusals.{IfNoMemory, MatchTryPutError};
ghost use Rattle.clru_model.specs.contracts.weight.ZeroWeightScale.{the_row as zero_scale_row};
ghost use Rattle.clru_model.specs.Entries.{plain_put};
ghost use Rattle.clru.specs.Closures.{TakesKey, TakesEntry, PutsOrModifies, TryPutsOrModifies, FailsToPutOrModify};
ghost use Rattle.clru.specs.Lends.{lends_put, lends_try};
ghost use Rattle.clru.specs.Memory.{NeedsPlace};

use crate::cache::CLruCache;
use clru_model::{TryPutError, WeightScale, ZeroWeightScale};
use std::alloc::Allocator;
use std::hash::{BuildHasher, Hash};

impl<K: Eq + Hash, V, S: BuildHasher, A: Allocator + Copy> CLruCache<K, V, S, ZeroWeightScale, A> {
    /// Puts a new entry with the value that `put_op` makes of the key and the data, or calls `modify_op` to change the value
    /// of a held key. Makes the entry the most recently used, and lends its value.
    ///
    /// A new entry drops the least recently used one of a full cache, after `put_op` has returned. If memory is
    /// refused, the call returns key and data, and no closure was called.
    /// Cost: that of a `put`, and one call of a closure.
    ///
    /// ```rust
    /// let one_more = |_: &_, count: &mut u64, _| *count = count.saturating_add(1);
    /// if counts.put_or_modify(word, |_, _| 1, one_more, ()).is_err() {
    ///     return Err(AllocError);
    /// }
    /// ```
    pub fn put_or_modify<T, P: FnMut(&K, T) -> V, M: FnMut(&K, &mut V, T)>(
        &mut self,
        key: K,
        mut put_op: P,
        mut modify_op: M,
        data: T,
    ) -> Result<&mut V, (K, T)>
    where
        K: Drop,
        V: Drop,
        requires put { lookup_entry (K.eq key) self.old.entries ≡ None → TakesKey P.FnMut put_op key «data» }
        requires modify { (k : K) (v : V) → lookup_entry (K.eq key) self.old.entries ≡ Some (k, v)
            → TakesEntry M.FnMut modify_op k v «data» }
        ensures* lends { sem 𝓛 (lends_put K.row V.row S.row zero_scale_row A.row S.Hasher.row K.Hash S.BuildHasher
            S.Hasher.Hasher ⟦<ZeroWeightScale as WeightScale<K, V>>⟧ A.Allocator self.entry key result) }
        ensures called { IfOk result (λ x.
            PutsOrModifies P.FnMut M.FnMut (lookup_entry (K.eq key) self.old.entries)
            put_op modify_op key «data» x.now) }
        ensures refused { IfErr result (λ back. back ≡ (key, «data»)) }
        ensures memory { IsErr result → NeedsPlace K.eq self.old key }
    {
        let hash = self.map.hash(&key);
        if self.map.touch(hash, &key) {
            let (stored, value) = self.map.front_mut();
            modify_op(stored, &mut *value, data);
            return Ok(value);
        }
        let Ok(()) = self.map.make_ready() else {
            return Err((key, data));
        };
        let value = put_op(&key, data);
        let _ = self.map.put_front(hash, key, value);
        Ok(self.map.front_mut().1)
    }

    /// Puts a new entry with the value that `put_op` makes of the key and the data, or calls `modify_op` to change the value
    /// of a held key; either may fail. Makes the entry the most recently used, and lends its value.
    ///
    /// If the closure that was called fails, its error is returned. If it is `put_op`, no entry has changed, and a full cache
    /// has dropped none. If it is `modify_op`, its entry is the most recently used, with what it has written.
    /// If memory is refused, the call returns key and data, and no closure was called. Places for which memory was
    /// found stay.
    /// Cost: that of a `put`, and one call of a closure.
    ///
    /// ```rust
    /// let add = |_: &u64, size: &mut u64, bytes| match size.checked_add(bytes) {
    ///     Some(sum) => {
    ///         *size = sum;
    ///         Ok(())
    ///     }
    ///     None => Err(TooLarge),
    /// };
    /// match sizes.try_put_or_modify(page, |_, bytes| Ok(bytes), add, bytes) {
    ///     Ok(size) => Ok(*size),
    ///     Err(refusal) => Err(refusal),
    /// }
    /// ```
    pub fn try_put_or_modify<
        T,
        E,
        P: FnMut(&K, T) -> Result<V, E>,
        M: FnMut(&K, &mut V, T) -> Result<(), E>,
    >(
        &mut self,
        key: K,
        mut put_op: P,
        mut modify_op: M,
        data: T,
    ) -> Result<&mut V, TryPutError<K, T, E>>
    where
        K: Drop,
        V: Drop,
        requires put { lookup_entry (K.eq key) self.old.entries ≡ None → TakesKey P.FnMut put_op key «data» }
        requires modify { (k : K) (v : V) → lookup_entry (K.eq key) self.old.entries ≡ Some (k, v)
            → TakesEntry M.FnMut modify_op k v «data» }
        ensures* lends { let held = lookup_entry (K.eq key) self.old.entries in let before = self.old.entries in
            sem 𝓛 (lends_try K.row V.row S.row zero_scale_row A.row S.Hasher.row K.Hash S.BuildHasher
            S.Hasher.Hasher ⟦<ZeroWeightScale as WeightScale<K, V>>⟧ A.Allocator self.entry key result
            (λ e after. MatchTryPutError e (after ≡ before)
            (λ f. FailsToPutOrModify P.FnMut M.FnMut held put_op modify_op key «data» f
            before (λ v. plain_put K.eq self.old.capacity key v before) after))) }
        ensures called { IfOk result (λ x.
            TryPutsOrModifies P.FnMut M.FnMut (lookup_entry (K.eq key) self.old.entries)
            put_op modify_op key «data» x.now) }
        ensures refused { IfErr result (λ e. IfNoMemory e (λ back. back ≡ (key, «data»))) }
        ensures memory { IfErr result (λ e. IfNoMemory e (λ _. NeedsPlace K.eq self.old key)) }
    {
        let hash = self.map.hash(&key);
        if self.map.touch(hash, &key) {
            let (stored, value) = self.map.front_mut();
            if let Err(error) = modify_op(stored, &mut *value, data) {
                return Err(TryPutError::Failed(error));
            }
            return Ok(value);
        }
        let Ok(()) = self.map.make_ready() else {
            return Err(TryPutError::NoMemory(key, data));
        };
        let value = match put_op(&key, data) {
            Ok(value) => value,
            Err(error) => return Err(TryPutError::Failed(error)),
        };
        let _ = self.map.put_front(hash, key, value);
        Ok(self.map.front_mut().1)
    }
}

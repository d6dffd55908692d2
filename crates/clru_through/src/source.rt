//! Where the values of a store come from.
ghost use Rattle.std.specs.Prelude.{◌≡◌, Option, Some, Result, IfOk, IsTrue};

/// A source of values, which may fail.
///
/// Each fetch of a key that succeeds returns the same value, and equal keys have the same value.
pub trait Source<K: Eq, V, E> {
    // What a fetch of the key gives if it succeeds. It is an `Option`, since some source fails at some key always.
    ghost value: { Self → K → Option V };

    // One fetch: which result it may return, and which source it may leave.
    ghost fetches: { Self → K → Result V E → Self → Type 0 };

    /// Fetches the value of the key.
    fn fetch(&mut self, key: &K) -> Result<V, E>
        ensures value { IfOk result (λ v. value self.old key.now ≡ Some v) }
        ensures kept { (k : K) → value self.new k ≡ value self.old k }
        ensures step { fetches self.old key.now result self.new };

    // Keys that are the same have one value.
    ghost same: { (s : Self) (x y : K) → IsTrue (K.eq x y) → value s x ≡ value s y };
}

/// What a store fetches from: at `ByValue` a `Source`; at `ByPromise` a source whose values may change, as those of files do.
///
/// It promises something of each key's value, and each fetch that succeeds returns a value that keeps the promise.
pub trait Fetch<K: Eq, V, E, M>: Sealed<K, V, E, M> {
    // What can be promised of a value: a type of one's own, as a length. `⊤` promises nothing.
    ghost Promise: { Type 0 };

    // What is promised of the values of the key.
    ghost promised: { Self → K → Self.Promise };

    // The value keeps the promise.
    ghost keeps: { Self.Promise → V → Type 0 };

    // One fetch: which result it may return, and which source it may leave.
    ghost fetches: { Self → K → Result V E → Self → Type 0 };

    /// Fetches a value of the key.
    fn fetch(&mut self, key: &K) -> Result<V, E>
        ensures value { IfOk result (λ v. keeps (promised self.old key.now) v) }
        ensures kept { (k : K) → promised self.new k ≡ promised self.old k }
        ensures step { fetches self.old key.now result self.new };

    // Of keys that are the same the same is promised.
    ghost same: { (s : Self) (x y : K) → IsTrue (K.eq x y) → promised s x ≡ promised s y };
}

/// The store's source is a `Source`: it has one value for a key, and no other keeps its promise.
pub struct ByValue;

/// The store's source is a `Fetch` of one's own, which promises what it can.
pub struct ByPromise;

/// Limits which types can be a `Fetch`: at `ByValue` each `Source` and no other type, at `ByPromise` each type.
///
/// No other crate can name it. So none can write a `Fetch` at `ByValue` whose promise is less than the value.
pub trait Sealed<K: Eq, V, E, M> {}

impl<K: Eq, V, E, R: Source<K, V, E>> Sealed<K, V, E, ByValue> for R {}

impl<K: Eq, V, E, R> Sealed<K, V, E, ByPromise> for R {}

// What is promised is the value.
impl<K: Eq, V, E, R: Source<K, V, E>> Fetch<K, V, E, ByValue> for R {
    ghost Promise = { Option V };

    ghost promised = { R.value };

    ghost keeps = { λ promise v. promise ≡ Some v };

    ghost fetches = { R.fetches };

    fn fetch(&mut self, key: &K) -> Result<V, E> {
        Source::fetch(self, key)
    }

    ghost same = { R.same };
}

//! The calls of a cache and their results, as values.
ghost use Rattle.std.specs.Prelude.{◌≡◌, ◌+◌, ◌<◌, ◌^◌, Some};

use clru::{Put, PutError, TryPutError};

/// A call of a cache, by any scale.
#[derive(Drop)]
pub enum Call<K, V> {
    PutWithWeight(K, V),
    Get(K),
    Peek(K),
    Contains(K),
    Len,
    Weight,

    /// The number of entries plus their total weight.
    Size,
    Capacity,
    IsEmpty,
    IsFull,
    Demote(K),
    Pop(K),
    Front,
    Back,

    /// The value to which a walk from the front comes after so many others.
    Nth(usize),

    /// The value to which a walk from the back comes after so many others.
    NthBack(usize),
    PopFront,
    PopBack,
    Clear,

    /// To that capacity, or to 1 if it is 0.
    Resize(usize),

    /// Keeps the entries of the other keys.
    Retain(K),
}

/// A call of a cache whose pairs weigh nothing.
#[derive(Drop)]
pub enum PlainCall<K, V> {
    Put(K, V),

    /// A new key gets the value, and so does a held one.
    PutOrModify(K, V),

    /// A new key gets the value, and so does a held one, by closures that may fail.
    TryPutOrModify(K, Attempt<V>),

    /// The value is written to the one that is lent.
    GetMut(K, V),
    PeekMut(K, V),
    FrontMut(V),
    BackMut(V),

    /// Keeps the entries of the other keys, and writes the value to each.
    RetainMut(K, V),

    /// Puts of the pairs in turn.
    Extend(Vec<(K, V)>),

    /// A call that each cache has.
    Any(Call<K, V>),
}

/// What the closures of a put-or-modify do that may fail.
#[derive(Clone, Copy)]
pub enum Attempt<V> {
    /// The one that is called stores the value.
    Store(V),

    /// It fails. That for a held key has written the value first, if there is one.
    Fail(Option<V>),
}

/// What a call returned, with the values that it lent copied out.
#[derive(Drop)]
pub enum Answer<K, V> {
    /// Of a plain put: the old value of the key and the pair that was dropped, or the pair that was refused.
    Stored(Result<Put<K, V>, (K, V)>),

    /// Of a weighted put: the old value of the key and what was handed out, or the pair that was refused, and why.
    Weighed(Result<Weighing<K, V>, PutError<K, V>>),

    /// Of a put-or-modify: the value that it lent, or the pair that was refused.
    Lent(Result<V, (K, V)>),

    /// Of puts of pairs in turn: the pair that was refused, if one was.
    Extended(Result<(), (K, V)>),

    /// Of a put-or-modify that may fail: the value that it lent, or why it was refused.
    Tried(Result<V, TryPutError<K, Attempt<V>, ()>>),

    /// Of a look-up, and of an end: the value there, which was the old one if another was written.
    Value(Option<V>),
    Pair(Option<(K, V)>),
    Number(usize),
    Flag(bool),

    /// Of a call that returns nothing.
    Done,
}

/// What a weighted put did that was not refused.
///
/// No memory is taken for the pairs that it dropped, so of these there are the number and the last one: the put takes them
/// from the back, one after the other.
#[derive(Drop)]
pub struct Weighing<K, V> {
    /// The old value of the key, if it was held.
    pub replaced: Option<V>,

    /// How many pairs were handed out.
    pub drop_count: usize,

    /// The pair that was handed out last.
    pub last: Option<(K, V)>,
}

impl<K: Drop, V: Drop> Weighing<K, V> {
    /// Notes one more pair that was handed out.
    pub(crate) fn take(&mut self, key: K, value: V)
        requires { self.old.drop_count + 1 < 2 ^ 64 }
        ensures drop_count { self.new.drop_count ≡ self.old.drop_count + 1 }
        ensures last { self.new.last ≡ Some (key, value) }
    {
        self.drop_count += 1;
        self.last = Some((key, value));
    }
}

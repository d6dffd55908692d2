//! The closures that a line can name. Each notes its calls in the world.

use crate::out::Out;
use crate::pairs::{Key, Value};
use crate::words::{Words, Wrong};
use crate::world::World;

/// Which entries a retain keeps.
#[derive(Clone, Copy)]
pub enum Keep {
    All,
    None,
    /// Those whose value is an even number,
    Even,
    /// an odd one,
    Odd,
    /// one below that,
    Below(usize),
    /// or one above it.
    Above(usize),
}

impl Keep {
    pub fn read(words: &mut Words) -> Keep {
        match words.word() {
            "all" => Keep::All,
            "none" => Keep::None,
            "even" => Keep::Even,
            "odd" => Keep::Odd,
            "below" => Keep::Below(words.number()),
            "above" => Keep::Above(words.number()),
            _ => {
                words.note(Wrong::NoSuchWord);
                Keep::All
            }
        }
    }

    /// Whether an entry is kept. The call is noted.
    pub fn keeps_entry(self, world: &World, key: &Key, value: &Value) -> bool {
        world.note("keep", &key.text);
        self.keeps(value.number())
    }

    /// Whether an entry of this number is kept.
    pub fn keeps(self, number: usize) -> bool {
        match self {
            Keep::All => true,
            Keep::None => false,
            Keep::Even => number % 2 == 0,
            Keep::Odd => number % 2 == 1,
            Keep::Below(most) => number < most,
            Keep::Above(least) => number > least,
        }
    }
}

/// What the closures of a put-or-modify do.
#[derive(Clone, Copy)]
pub(crate) enum Form {
    /// The data are the value, of a held key too.
    Store,
    /// They are added to the value of a held key.
    Add,
    /// The length of the key is added to them. A held value that is that length is doubled, another halved, and they are added.
    Length,
    /// Both fail, with the error that is named,
    Fails(Failed),
    /// that of a held key once it has written the data,
    WriteFails(Failed),
    /// or where the data are an odd number, which is the error.
    OddFails,
}

impl Form {
    pub(crate) fn read(words: &mut Words) -> Form {
        match words.next().unwrap_or("store") {
            "store" => Form::Store,
            "add" => Form::Add,
            "length" => Form::Length,
            "fails" => Form::Fails(Failed::read(words)),
            "write-fails" => Form::WriteFails(Failed::read(words)),
            "odd-fails" => Form::OddFails,
            _ => {
                words.note(Wrong::NoSuchWord);
                Form::Store
            }
        }
    }

    /// The value of a new key.
    pub(crate) fn put(self, world: &World, key: &Key, data: Value) -> Value {
        world.note("put_op", &key.text);
        let mut value = data;
        if let Form::Length = self {
            value.set(value.number().saturating_add(key.text.len()));
        }
        value
    }

    /// What becomes of a held value.
    pub(crate) fn modify(self, world: &World, key: &Key, held: &mut Value, data: &Value) {
        world.note("modify_op", &key.text);
        self.write(key, held, data);
    }

    fn write(self, key: &Key, held: &mut Value, data: &Value) {
        let (old, more) = (held.number(), data.number());
        match self {
            Form::Add => held.set(old.saturating_add(more)),
            Form::Length if old == key.text.len() => {
                held.set(old.saturating_mul(2).saturating_add(more));
            }
            Form::Length => held.set((old / 2).saturating_add(more)),
            _ => held.copy(data),
        }
    }

    /// The value of a new key, where the closure does not fail.
    pub(crate) fn try_put(self, world: &World, key: &Key, data: Value) -> Result<Value, Failed> {
        if let Some(failed) = self.failed(&data) {
            world.note("put_op", &key.text);
            return Err(failed);
        }
        Ok(self.put(world, key, data))
    }

    /// What becomes of a held value, and whether the closure fails.
    pub(crate) fn try_modify(
        self,
        world: &World,
        key: &Key,
        held: &mut Value,
        data: &Value,
    ) -> Result<(), Failed> {
        world.note("modify_op", &key.text);
        let Some(failed) = self.failed(data) else {
            self.write(key, held, data);
            return Ok(());
        };
        if let Form::WriteFails(_) = self {
            held.copy(data);
        }
        Err(failed)
    }

    /// The error with which the closures fail at these data, where they do.
    fn failed(self, data: &Value) -> Option<Failed> {
        let number = data.number();
        match self {
            Form::Fails(failed) | Form::WriteFails(failed) => Some(failed),
            Form::OddFails if number % 2 == 1 => Some(Failed {
                error: Some(number),
            }),
            Form::OddFails | Form::Store | Form::Add | Form::Length => None,
        }
    }
}

/// The error of a closure or a fetch that fails: a number, where a line names one.
#[derive(Clone, Copy)]
pub struct Failed {
    pub error: Option<usize>,
}

impl Failed {
    /// The number that is left, where one is.
    pub fn read(words: &mut Words) -> Failed {
        Failed {
            error: if words.is_empty() {
                None
            } else {
                Some(words.number())
            },
        }
    }

    pub fn say(self, out: &mut Out) {
        out.say("failed");
        if let Some(error) = self.error {
            out.count(" ", error);
        }
    }
}

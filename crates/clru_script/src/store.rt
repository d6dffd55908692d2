//! Blocks of calls of a store, over a source whose value of a key is the key's letters twice, or as often as it is told, or the double
//! of its number.
ghost use Rattle.std.specs.Prelude.{⊤};
ghost use Rattle.std.specs.Cmp.Rules.{comparing};
ghost use Rattle.std.proofs.Common.{rules};

use clru_rows::answers::Answers;
use clru_rows::cache::made;
use clru_rows::calls::{read, say_found, say_list, say_popped, say_value};
use clru_rows::closures::{Failed, Keep};
use clru_rows::costs::cost_of;
use clru_rows::fault::Fault;
use clru_rows::lines::Line;
use clru_rows::out::{Out, Outcome};
use clru_rows::pairs::{Hashing, Key, Value};
use clru_rows::scale::Scale;
use clru_rows::subject::{Subject, begin};
use clru_rows::whole::cache_fault;
use clru_rows::words::{Words, Wrong, number_of};
use clru_rows::world::{World, add};
use clru_through::{Answer, ByPromise, Fetch, Loaded, Through};
use ration::Rationed;
use std::alloc::{Allocator, Global};
use std::hash::BuildHasher;

/// Gives each key so many times.
#[derive(Drop)]
struct Origin {
    world: &'static World,
    times: usize,
}

impl Origin {
    /// The value of a key, which weighs its letters.
    fn value(&self, key: &Key) -> Value {
        let mut value = Value::repeated(self.world, &key.text, self.times);
        if self.world.head.doubled {
            let number = number_of(&key.text).unwrap_or(0);
            value.set(number.saturating_mul(2));
        }
        value
    }
}

impl Fetch<Key, Value, Failed, ByPromise> for Origin {
    // It may be told to give other values at any time, so nothing is promised.
    ghost Promise = { ⊤ };

    ghost promised = { λ _ _. tt };

    ghost keeps = { λ _ _. ⊤ };

    ghost fetches = { λ _ _ _ _. ⊤ };

    fn fetch(&mut self, key: &Key) -> Result<Value, Failed> {
        let number = self.world.fetched.get();
        add(&self.world.fetched);
        if self.world.fails_from.get() <= number && number < self.world.fails_below.get() {
            return Err(self.world.failed.get());
        }
        Ok(self.value(key))
    }

    ghost same = { Prim.search (rules, comparing) };
}

/// A store over what is counted.
type Counted = Any<Hashing, &'static Rationed<Global>>;

/// One over any hash builder and memory.
type Any<S, A> = Through<Key, Value, Failed, Origin, S, Scale, A, ByPromise>;

/// A store with what its calls are made of, until it is taken apart.
#[derive(Drop)]
struct Store {
    world: &'static World,
    through: Option<Counted>,
    /// The values that the store keeps beside its cache: one after a `get` that passed it on.
    passed: u64,
}

/// Runs a block: makes the store of its first line, and the calls of the others.
pub(crate) fn run(world: &'static World, lines: &[Line], answers: &mut Answers) {
    let store = filled(world, answers);
    begin(world, store, lines, answers);
}

/// Runs a block whose lines have a store each, and as their answer what its call costs.
pub(crate) fn run_costs(world: &'static World, lines: &[Line], answers: &mut Answers) {
    answers.say("");
    for line in lines {
        if line.call.is_empty() {
            answers.say("");
        } else {
            let store = filled(world, answers);
            cost_of(world, store, line, answers);
        }
    }
}

/// Makes a store and loads the first keys, or answers `None` for want of memory.
fn filled(world: &'static World, answers: &mut Answers) -> Option<Store> {
    let head = world.head;
    let reserve = head.reserve.unwrap_or(0);
    let mut cache = made(world, head.capacity, reserve, Scale { world })?;
    // It is empty. A store asks for that to be seen.
    cache.clear();
    let mut through = Through::new(cache, Origin { world, times: 2 });
    load(world, &mut through, answers);
    let through = Some(through);
    Some(Store {
        world,
        through,
        passed: 0,
    })
}

fn load<S: BuildHasher, A: Allocator + Copy>(
    world: &'static World,
    store: &mut Any<S, A>,
    answers: &mut Answers,
) {
    for number in 0..world.head.filled {
        let Ok(word) = number.to_string(world.alloc) else {
            answers.is_short = true;
            return;
        };
        if store.load(Key::new(world, &word)).is_err() {
            answers.wrong = Some(Wrong::NotFilled);
            return;
        }
    }
}

impl Subject for Store {
    fn call(&mut self, name: &str, words: &mut Words, out: &mut Out) {
        let world = self.world;
        if name == "fail" {
            fail(world, words);
            out.say("done");
            return;
        }
        if name == "into_parts" {
            self.passed = 0;
            match self.through.take() {
                Some(store) => say_parts(store, out),
                None => words.note(Wrong::NothingMade),
            }
        } else if let Some(store) = &mut self.through {
            if !got(store, &mut self.passed, world, name, words, out) {
                called(store, world, name, words, out);
            }
        } else {
            words.note(Wrong::NothingMade);
        }
    }

    fn fault(&self) -> Option<Fault> {
        match &self.through {
            Some(store) => cache_fault(self.world, store.cache(), self.passed),
            None => None,
        }
    }
}

/// `fail N`: each fetch after the next N ones; `fail one N`: the one after them alone; `fail none`. A number behind it is the error.
fn fail(world: &'static World, words: &mut Words) {
    if words.passes("none") {
        world.fails_below.set(0);
        return;
    }
    let is_one = words.passes("one");
    let from = world.fetched.get().saturating_add(words.number() as u64);
    world.fails_from.set(from);
    world.fails_below.set(if is_one {
        from.saturating_add(1)
    } else {
        u64::MAX
    });
    world.failed.set(Failed::read(words));
}

/// Takes a store apart, and says what it held and how often it fetched.
fn say_parts<S: BuildHasher + Drop, A: Allocator + Copy>(store: Any<S, A>, out: &mut Out) {
    let (cache, source) = store.into_parts();
    say_list(cache.iter(), out);
    out.count("; fetches ", source.world.fetched.get() as usize);
}

/// Makes a `get`, or a call that takes what the latest one passed on or failed with. Answers `false` where the name is none of
/// these.
fn got<S: BuildHasher, A: Allocator + Copy>(
    store: &mut Any<S, A>,
    passed: &mut u64,
    world: &'static World,
    name: &str,
    words: &mut Words,
    out: &mut Out,
) -> bool {
    match name {
        "get" => *passed = say_answer(store.get(Key::next(world, words)), out),
        "take_passed" => {
            *passed = 0;
            say_popped(store.take_passed(), out);
        }
        "take_error" => match store.take_error() {
            Some(failed) => failed.say(out),
            None => out.say("none"),
        },
        _ => return false,
    }
    true
}

/// Makes a call that leaves the store.
fn called<S: BuildHasher, A: Allocator + Copy>(
    store: &mut Any<S, A>,
    world: &'static World,
    name: &str,
    words: &mut Words,
    out: &mut Out,
) {
    if looked_up(store, world, name, words, out) {
        return;
    }
    if changed(store, world, name, words, out) {
        return;
    }
    if !read(store.cache(), world, name, words, out) {
        words.note(Wrong::NoSuchCall);
    }
}

/// Makes a call that looks for a key. Answers `false` where the name is none of these.
fn looked_up<S: BuildHasher, A: Allocator + Copy>(
    store: &mut Any<S, A>,
    world: &'static World,
    name: &str,
    words: &mut Words,
    out: &mut Out,
) -> bool {
    match name {
        "load" | "refresh" | "load_unless" => say_loaded(loaded(store, world, name, words), out),
        "load_handing_to" => say_handed(store, world, words, out),
        "put" | "is_too_heavy" => fit(store, name, Key::next(world, words), out),
        "hit" | "peek" | "pop" => by_key(store, name, &Key::next(world, words), out),
        _ => return false,
    }
    true
}

/// A load; `load_unless` fetches again where the held value is of a form.
fn loaded<S: BuildHasher, A: Allocator + Copy>(
    store: &mut Any<S, A>,
    world: &'static World,
    name: &str,
    words: &mut Words,
) -> Result<Loaded<Value>, Failed> {
    let key = Key::next(world, words);
    match name {
        "load" => store.load(key),
        "refresh" => store.refresh(key),
        _ => {
            let stale = Keep::read(words);
            store.load_unless(key, |key, value| stale.keeps_entry(world, key, value))
        }
    }
}

/// A load whose closure notes what it is handed.
fn say_handed<S: BuildHasher, A: Allocator + Copy>(
    store: &mut Any<S, A>,
    world: &'static World,
    words: &mut Words,
    out: &mut Out,
) {
    let mut dropped = Out::new(world.alloc);
    let mut note = |key: Key, value: Value| {
        world.note("on_drop", &key.text);
        dropped.say(", dropped ");
        dropped.say(&key.text);
        say_of(" ", &value, &mut dropped);
    };
    let loaded = store.load_handing_to(Key::next(world, words), &mut note);
    say_loaded(loaded, out);
    out.say(&dropped.text);
}

/// A look-up or a removal.
fn by_key<S: BuildHasher, A: Allocator + Copy>(
    store: &mut Any<S, A>,
    name: &str,
    key: &Key,
    out: &mut Out,
) {
    match name {
        "hit" => say_value(store.hit(key), out),
        "peek" => say_value(store.peek(key), out),
        _ => say_popped(store.pop(key), out),
    }
}

/// A call by a key and its value, `put` or `is_too_heavy`.
fn fit<S: BuildHasher, A: Allocator + Copy>(
    store: &mut Any<S, A>,
    name: &str,
    key: Key,
    out: &mut Out,
) {
    let value = store.source().value(&key);
    if name == "put" {
        say_put(store.put(key, value), out);
    } else {
        out.truth(store.is_too_heavy(&key, &value));
    }
}

/// Says what a load answered,
fn say_loaded(loaded: Result<Loaded<Value>, Failed>, out: &mut Out) {
    match &loaded {
        Ok(Loaded::Held { fetched: true }) => out.say("fetched"),
        Ok(Loaded::Held { fetched: false }) => out.say("held"),
        Ok(Loaded::Passed(value)) => say_of("passed ", value, out),
        Err(failed) => failed.say(out),
    }
}

/// what a `get` did, of which the answer is how many values it passed on,
fn say_answer(answer: Result<Answer<'_, Value>, &Failed>, out: &mut Out) -> u64 {
    match answer {
        Ok(Answer::Held(value)) => say_of("held ", value, out),
        Ok(Answer::Passed(value)) => {
            say_of("passed ", value, out);
            return 1;
        }
        Err(failed) => failed.say(out),
    }
    0
}

/// and what a put did.
fn say_put(put: Result<(), Value>, out: &mut Out) {
    match &put {
        Ok(()) => out.say("stored"),
        Err(value) => say_of("back ", value, out),
    }
}

/// Says what became of a value.
fn say_of(what: &str, value: &Value, out: &mut Out) {
    out.say(what);
    value.say(out);
}

/// Makes a call of the whole store. Answers `false` where the name is none of these.
fn changed<S: BuildHasher, A: Allocator + Copy>(
    store: &mut Any<S, A>,
    world: &'static World,
    name: &str,
    words: &mut Words,
    out: &mut Out,
) -> bool {
    match name {
        "clear" => store.clear(),
        "resize" => store.resize(words.capacity()),
        "retain" => {
            let keep = Keep::read(words);
            store.retain(|key, value| keep.keeps_entry(world, key, value));
        }
        "source_mut" => store.source_mut().times = words.number(),
        "source" => out.count("fetches ", fetches_of(store)),
        "front" => say_found(store.front(), out),
        _ => return out.outcome(outcome_of(store, name)),
    }
    out.or("done");
    true
}

/// The fetches so far, as the source counts them.
fn fetches_of<S: BuildHasher, A: Allocator + Copy>(store: &Any<S, A>) -> usize {
    store.source().world.fetched.get() as usize
}

/// What a call of the whole store tells.
fn outcome_of<S: BuildHasher, A: Allocator + Copy>(store: &Any<S, A>, name: &str) -> Outcome {
    match name {
        "len" => Outcome::Number(Some(store.len())),
        "weight" => Outcome::Number(Some(store.weight())),
        "capacity" => Outcome::Number(Some(store.capacity())),
        _ => Outcome::NoCall,
    }
}

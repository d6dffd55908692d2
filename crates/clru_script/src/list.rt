//! Blocks of calls of a list of numbers.

use crate::list::change::change;
use crate::list::read::read;
use crate::list::whole::list_fault;
use clru_list::FixedSizeList;
use clru_rows::answers::Answers;
use clru_rows::fault::Fault;
use clru_rows::lines::Line;
use clru_rows::out::Out;
use clru_rows::subject::{Subject, run_lines};
use clru_rows::words::{Words, Wrong};
use clru_rows::world::{Cost, World};
use ration::Rationed;
use std::alloc::Global;

mod change;
mod lend;
mod read;
mod whole;

/// A list over any memory: what calls it is proved with no look at how that counts.
pub(crate) type Numbers<A> = FixedSizeList<u64, A>;

/// One over memory that is counted.
type Counted = Numbers<&'static Rationed<Global>>;

/// A list, and the world that its memory is of.
#[derive(Drop)]
struct List {
    world: &'static World,
    list: Counted,
}

/// Runs a block: makes the list of its first line, says what that cost, and makes the calls of the others. A maker that meets a
/// refusal is called once more.
pub(crate) fn run(world: &'static World, lines: &[Line], answers: &mut Answers) {
    let mut before = world.cost();
    let list = made_at_last(world, &mut before, answers);
    let cost = world.cost().since(before);
    let mut out = Out::new(world.alloc);
    out.say(if list.is_some() { "made" } else { "no memory" });
    if cost.requests > 0 {
        out.count(", requests ", cost.requests as usize);
        out.count(", bytes ", cost.bytes as usize);
    }
    answers.add(out);
    match list {
        Some(list) => run_lines(world, List { world, list }, lines, answers),
        None => {
            answers.say_left_over(world);
            answers.refuse(lines, Wrong::NothingMade);
        }
    }
}

/// Makes a list, once more where a refusal is met.
fn made_at_last(
    world: &'static World,
    before: &mut Cost,
    answers: &mut Answers,
) -> Option<Counted> {
    if let Some(list) = made(world) {
        return Some(list);
    }
    if answers.refused.is_none() {
        return None;
    }
    *before = world.cost();
    answers.meet("the list -> no memory; again -> made");
    made(world)
}

/// Makes a list, or answers `None` for want of memory.
fn made(world: &'static World) -> Option<Counted> {
    let (heap, head) = (&world.heap, world.head);
    if let Some(n) = head.refuse {
        heap.refuse_after(n as u64);
    }
    match (head.reserve, head.limit) {
        (Some(reserve), _) => FixedSizeList::with_memory(heap, head.capacity, reserve).ok(),
        (None, Some(limit)) => {
            Some(FixedSizeList::with_narrow_places(heap, head.capacity, limit))
        }
        (None, None) => Some(FixedSizeList::new(heap, head.capacity)),
    }
}

impl Subject for List {
    fn call(&mut self, name: &str, words: &mut Words, out: &mut Out) {
        if !read(&self.list, name, words, out)
            && !change(&mut self.list, self.world, name, words, out)
        {
            words.note(Wrong::NoSuchCall);
        }
        out.or("done");
    }

    fn fault(&self) -> Option<Fault> {
        list_fault(&self.list)
    }
}

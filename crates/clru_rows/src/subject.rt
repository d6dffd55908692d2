//! What the lines of a block call, one after the other, and what is looked at after each call.

use crate::answers::Answers;
use crate::fault::{Fault, say_fault};
use crate::lines::Line;
use crate::out::Out;
use crate::words::Words;
use crate::world::{Cost, World};

/// A cache, a list or a store that lines call.
pub trait Subject {
    /// Makes the call of that name, and writes what it answered.
    fn call(&mut self, name: &str, words: &mut Words, out: &mut Out);

    /// What is wrong with it now, where something is.
    fn fault(&self) -> Option<Fault>;
}

/// Answers the first line, and runs the others on what was made.
pub fn begin<T: Subject + Drop>(
    world: &World,
    made: Option<T>,
    lines: &[Line],
    answers: &mut Answers,
) {
    match made {
        Some(subject) => {
            answers.say("");
            run_lines(world, subject, lines, answers);
        }
        None => answers.nothing(world),
    }
}

/// Makes the calls of the lines, and looks at what is left at the end. Up to the first call, the last one is what the first line
/// made.
pub fn run_lines<T: Subject + Drop>(
    world: &World,
    mut subject: T,
    lines: &[Line],
    answers: &mut Answers,
) {
    let mut cost = world.cost();
    for line in lines {
        let mut out = Out::new(world.alloc);
        if !line.call.is_empty() && !looked(world, line, cost, &mut out) {
            answer_to(world, &mut subject, line, &mut cost, answers, &mut out);
        }
        answers.add(out);
    }
    drop(subject);
    answers.say_left_over(world);
}

/// The answer to a line.
fn answer_to<T: Subject>(
    world: &World,
    subject: &mut T,
    line: &Line,
    cost: &mut Cost,
    answers: &mut Answers,
    out: &mut Out,
) {
    let (before, refused) = (world.cost(), world.heap.refused());
    let _ = world.notes();
    make(world, subject, line, out);
    *cost = world.cost().since(before);
    if answers.refused.is_some() && world.heap.refused() != refused {
        answers.meet(line.call);
        answers.met.say(" -> ");
        answers.met.say(&out.text);
        if is_refusal(&out.text) {
            out.clear();
            make(world, subject, line, out);
            answers.met.say("; again -> ");
            answers.met.say(&out.text);
        }
    }
    say_fault(subject.fault(), out);
}

/// Whether a call found no memory. Another, which took less than it asked for first, answers as ever.
fn is_refusal(answer: &str) -> bool {
    answer.contains("no memory") || answer.starts_with("passed")
}

/// Makes the call of a line. `times N` before it makes it so often, with the last answer as the answer; `each M N` once for each
/// number from M to N, up or down, which stands for `*` in it, with all answers.
pub fn make<T: Subject>(world: &World, subject: &mut T, line: &Line, out: &mut Out) {
    let mut words = Words::new(line.call);
    if words.passes("each") {
        each(world, subject, &mut words, out);
        return;
    }
    let mut count = 1;
    if words.passes("times") {
        count = words.number();
    }
    for _ in 0..count {
        call_of(subject, words, out);
    }
}

/// Makes the call of these words.
fn call_of<T: Subject>(subject: &mut T, mut words: Words, out: &mut Out) {
    out.clear();
    let name = words.word();
    subject.call(name, &mut words, out);
    words.end(out);
}

/// Makes the call of the words behind two numbers for each number from the first to the second, and says all answers.
fn each<T: Subject>(world: &World, subject: &mut T, words: &mut Words, out: &mut Out) {
    let (first, last) = words.numbers(2);
    let mut run = Run::new(world);
    for step in 0..=first.abs_diff(last) {
        let number = if first < last {
            first.saturating_add(step)
        } else {
            first.saturating_sub(step)
        };
        call_of(subject, words.with_number(world.alloc, number), out);
        run.add(out);
    }
    run.end();
    out.clear();
    out.say(&run.said.text);
}

/// Answers one after the other, where those that are the same are said once.
#[derive(Drop)]
struct Run {
    said: Out,
    latest: Out,
    times: usize,
}

impl Run {
    fn new(world: &World) -> Run {
        Run {
            said: Out::new(world.alloc),
            latest: Out::new(world.alloc),
            times: 0,
        }
    }

    fn add(&mut self, answer: &Out) {
        if self.latest.text.as_str() != answer.text.as_str() {
            self.end();
            self.latest.clear();
            self.latest.say(&answer.text);
        }
        self.times = self.times.saturating_add(1);
    }

    /// Says the latest answer, and how often it came.
    fn end(&mut self) {
        if self.times > 0 {
            self.said.part("; ");
            self.said.say(&self.latest.text);
        }
        if self.times > 1 {
            self.said.count(", ", self.times);
            self.said.say(" times");
        }
        self.times = 0;
    }
}

/// Looks at the last call, or says which requests are to be refused. Answers `false` where a line is none of these.
fn looked(world: &World, line: &Line, cost: Cost, out: &mut Out) -> bool {
    let mut words = Words::new(line.call);
    match words.word() {
        "cost" => say_cost(cost, out),
        "notes" => {
            let notes = world.notes();
            out.say(&notes);
            out.or("nothing");
        }
        "blocks" => {
            out.number(world.owned.blocks() as usize);
            out.count(" of pairs, ", world.heap.blocks() as usize);
            out.say(" of places");
        }
        "bytes" => out.number(world.heap.held_bytes() as usize),
        "refuse" => refuse(world, &mut words),
        _ => return false,
    }
    words.end(out);
    true
}

/// `refuse N`: each request after the next N ones; `refuse one N`: the one after them alone; `refuse none`. `refuse each` is
/// answered by the block as a whole.
fn refuse(world: &World, words: &mut Words) {
    if words.passes("none") {
        world.heap.refuse_none();
    } else if words.passes("one") {
        world.heap.refuse_one_after(words.number() as u64);
    } else if !words.passes("each") {
        world.heap.refuse_after(words.number() as u64);
    }
}

/// What a call cost, without what is 0.
pub fn say_cost(cost: Cost, out: &mut Out) {
    let parts = [
        ("hashes ", cost.hashed),
        ("comparisons ", cost.compared),
        ("weighings ", cost.weighed),
        ("fetches ", cost.fetched),
        ("requests ", cost.requests),
        ("bytes ", cost.bytes),
    ];
    for (name, count) in parts {
        if count > 0 {
            out.part(", ");
            out.count(name, count as usize);
        }
    }
    out.or("nothing");
}

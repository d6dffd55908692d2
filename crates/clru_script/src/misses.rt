//! The misses of a list of requests at each capacity, by a pass and as a whole.

use crate::passes::{say_misses, say_sized, say_span};
use clru::WeightScale;
use clru_curve::{
    DistancePass, MissCurve, SizedCurve, SizedPass, SizedRequestError, miss_curve, sized_curve,
};
use clru_rows::out::Out;
use clru_rows::requested::MOST;
use clru_rows::words::Words;
use clru_rows::world::World;
use std::alloc::Allocator;
use std::hash::BuildHasher;

/// `misses KEYS`: the distance of each request, and the misses at the capacities 1, 2 and so on. A request that is refused memory
/// is made again.
pub(crate) fn misses_of(world: &'static World, keys: &[&'static str], out: &mut Out) {
    curves_of(&world.heap, world.hashing(), keys, out);
}

fn curves_of<S: BuildHasher + Copy, A: Allocator + Copy>(
    heap: A,
    hashing: S,
    keys: &[&'static str],
    out: &mut Out,
) {
    let Some(pass) = requested(DistancePass::with_hasher(heap, hashing), keys, out) else {
        return;
    };
    let Ok(early) = pass.curve(heap) else {
        out.say("; no memory for a curve");
        return;
    };
    let late = pass.into_curve();
    match miss_curve(heap, keys, hashing) {
        Ok(whole) => say_curve(early.as_slice(), late.as_slice(), &whole, out),
        Err(_) => out.say("; no memory for the whole"),
    }
}

/// Says a curve, beside those of a pass early and late.
fn say_curve<A: Allocator>(early: &[usize], late: &[usize], whole: &MissCurve<A>, out: &mut Out) {
    if early != late || early != whole.as_slice() {
        out.say("; ? the curves differ");
    }
    say_misses(whole, out);
}

/// Makes the requests one by one, and answers the pass where each was taken.
fn requested<S: BuildHasher + Drop, A: Allocator + Copy>(
    mut pass: DistancePass<&'static str, S, A>,
    keys: &[&'static str],
    out: &mut Out,
) -> Option<DistancePass<&'static str, S, A>> {
    if keys.len() <= MOST {
        out.say("distances");
    }
    for key in keys {
        let taken = match pass.request(*key) {
            Err(back) => pass.request(back),
            taken => taken,
        };
        match taken {
            Ok(distance) if keys.len() <= MOST => say_span(distance, out),
            Ok(_) => {}
            Err(back) => {
                out.say(" no memory, back ");
                out.say(back);
                return None;
            }
        }
    }
    Some(pass)
}

/// A key with its weight behind a colon.
pub(crate) type Heavy = (&'static str, usize);

/// A key weighs what stands behind its colon.
#[derive(Clone, Copy)]
pub(crate) struct ByColon;

impl WeightScale<Heavy, ()> for ByColon {
    ghost weight = { λ _ key _. key.1 };

    fn weight(&self, key: &Heavy, _value: &()) -> usize {
        key.1
    }
}

/// The weight behind the colon, or 0 where there is none.
pub(crate) fn weight_of(word: &str, words: &mut Words) -> usize {
    match word.split_once(":") {
        Some((_, weight)) => words.number_of(weight),
        None => 0,
    }
}

/// A curve by size, or the key that was not taken.
type Curved<A> = Result<SizedCurve<A>, SizedRequestError<Heavy>>;

/// `sizes KEY:WEIGHT ..`: the span of each request, and the curve by size. A request that is refused memory is made again.
pub(crate) fn sizes_of(
    world: &'static World,
    texts: &[&'static str],
    words: &mut Words,
    out: &mut Out,
) {
    let keys = heavy_of(world, texts, words);
    sized_of(&world.heap, world.hashing(), &keys, out);
}

fn sized_of<S: BuildHasher + Copy, A: Allocator + Copy>(
    heap: A,
    hashing: S,
    keys: &[Heavy],
    out: &mut Out,
) {
    let pass = SizedPass::with_hasher(heap, hashing);
    let by_pass = passed(pass, keys, out);
    let whole = sized_curve(heap, keys, ByColon, hashing);
    out.part(", ");
    match &by_pass {
        Ok(curve) => say_curved(curve, &whole, out),
        Err(refused) => say_refused(refused, &whole, out),
    }
}

/// The keys of a list, with their weights.
pub(crate) fn heavy_of(
    world: &'static World,
    texts: &[&'static str],
    words: &mut Words,
) -> Vec<Heavy> {
    let mut keys: Vec<Heavy> = Vec::new(world.alloc);
    for text in texts {
        if keys.push((text, weight_of(text, words))).is_err() {
            world.is_short.set(true);
        }
    }
    keys
}

/// Says the curve of a pass beside that of the whole.
fn say_curved<A: Allocator>(curve: &SizedCurve<A>, whole: &Curved<A>, out: &mut Out) {
    match whole {
        Ok(whole) => {
            say_sized(curve, out);
            if !alike(curve, whole) {
                out.say("; ? the curves differ");
            }
        }
        Err(SizedRequestError::NoMemory(back)) => {
            out.say("no memory, back ");
            out.say(back.0);
        }
        Err(SizedRequestError::TooLarge(_)) => out.say("? the pass was not too large"),
    }
}

/// Says why a pass was refused, which the whole is for the same key.
fn say_refused<A: Allocator>(refused: &SizedRequestError<Heavy>, whole: &Curved<A>, out: &mut Out) {
    match (refused, whole) {
        (_, Err(SizedRequestError::NoMemory(back))) => {
            out.say("no memory, back ");
            out.say(back.0);
        }
        (SizedRequestError::TooLarge(key), Err(SizedRequestError::TooLarge(back)))
            if *key == *back => {
            out.say("too large, back ");
            out.say(key.0);
        }
        _ => out.say("? the pass was refused"),
    }
}

/// Makes the requests one by one.
fn passed<S: BuildHasher, A: Allocator + Copy>(
    mut pass: SizedPass<Heavy, S, A>,
    keys: &[Heavy],
    out: &mut Out,
) -> Curved<A>
where
    S: Drop,
{
    if keys.len() <= MOST {
        out.say("spans");
    }
    for key in keys {
        let taken = match pass.request(*key, key.1) {
            Err(SizedRequestError::NoMemory(back)) => pass.request(back, back.1),
            other => other,
        };
        match taken {
            Ok(span) if keys.len() <= MOST => say_span(span, out),
            Ok(_) => {}
            Err(error) => return Err(error),
        }
    }
    Ok(pass.into_curve())
}

/// Whether two curves say the same.
fn alike<A: Allocator>(curve: &SizedCurve<A>, other: &SizedCurve<A>) -> bool {
    curve.as_slice() == other.as_slice()
        && (curve.requests(), curve.size()) == (other.requests(), other.size())
        && curve.distinct_size() == other.distinct_size()
        && curve.greatest_weight() == other.greatest_weight()
}

//! The answers of a run in words.

use crate::out::Out;
use clru::{PutError, TryPutError};
use clru_runs::{Answer, Attempt};

type Pair = (usize, usize);

/// Says what a call answered.
pub(crate) fn say_answer(answer: &Answer<usize, usize>, out: &mut Out) {
    match answer {
        Answer::Stored(Ok(put)) => say_stored(put.replaced, put.dropped, out),
        Answer::Stored(Err(pair)) | Answer::Lent(Err(pair)) | Answer::Extended(Err(pair)) => {
            say_pair("no memory, back ", *pair, out);
        }
        Answer::Weighed(Ok(weighing)) => {
            say_stored(weighing.replaced, weighing.last, out);
            if weighing.drop_count > 1 {
                out.count(" as the last of ", weighing.drop_count);
            }
        }
        Answer::Weighed(Err(PutError::NoMemory(key, value))) => {
            say_pair("no memory, back ", (*key, *value), out);
        }
        Answer::Weighed(Err(PutError::TooHeavy(key, value))) => {
            say_pair("too heavy, back ", (*key, *value), out);
        }
        Answer::Lent(Ok(value)) | Answer::Tried(Ok(value)) => out.count("lent ", *value),
        Answer::Tried(Err(refusal)) => say_refusal(refusal, out),
        Answer::Value(value) => out.found(*value),
        Answer::Pair(Some(pair)) => say_pair("", *pair, out),
        Answer::Pair(None) => out.say("none"),
        Answer::Number(number) => out.number(*number),
        Answer::Flag(is) => out.truth(*is),
        Answer::Extended(Ok(())) | Answer::Done => out.say("done"),
    }
}

fn say_pair(what: &str, pair: Pair, out: &mut Out) {
    out.count(what, pair.0);
    out.count(" ", pair.1);
}

fn say_stored(replaced: Option<usize>, dropped: Option<Pair>, out: &mut Out) {
    out.say("stored");
    if let Some(value) = replaced {
        out.count(", replaced ", value);
    }
    if let Some(pair) = dropped {
        say_pair(", dropped ", pair, out);
    }
}

fn say_refusal(refusal: &TryPutError<usize, Attempt<usize>, ()>, out: &mut Out) {
    match refusal {
        TryPutError::NoMemory(key, Attempt::Store(value)) => {
            out.count("no memory, back ", *key);
            out.count(" store ", *value);
        }
        TryPutError::NoMemory(key, Attempt::Fail(_)) => {
            out.count("no memory, back ", *key);
            out.say(" fail");
        }
        TryPutError::Failed(()) => out.say("failed"),
    }
}

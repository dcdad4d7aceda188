// Replies of a shared table, as data. No function here knows the table, so each function that does has one return.
use crate::scenes::{Letter, Replied, Reply};
use far_sessions::Reading;
use far_shared::{Applied, Report};
use far_types::{Answer, Key, Name, Refusal};

// Returns the reply to a reading.
pub fn read(reading: Result<Reading, Refusal>) -> Replied {
    match reading {
        Ok(reading) => Ok(Reply::Reading(reading.edits, reading.count, reading.sum)),
        Err(refusal) => Err(refusal),
    }
}

// Returns the reply to an edit.
pub fn applied(applied: Result<Applied, Refusal>) -> Replied {
    match applied {
        Ok(applied) => Ok(Reply::Applied(applied.number, applied.place)),
        Err(refusal) => Err(refusal),
    }
}

// Returns the reply to a registration.
pub fn numbered(number: Result<u32, Refusal>) -> Replied {
    match number {
        Ok(number) => Ok(Reply::Number(number)),
        Err(refusal) => Err(refusal),
    }
}

// Returns the reply to an evacuation.
pub fn moved(name: Result<Option<Name>, Refusal>) -> Replied {
    match name {
        Ok(Some(name)) => Ok(Reply::Object(name)),
        Ok(None) => Ok(Reply::Nothing),
        Err(refusal) => Err(refusal),
    }
}

// Returns the reply to a call that returns nothing.
pub fn done(answer: Result<(), Refusal>) -> Replied {
    match answer {
        Ok(()) => Ok(Reply::Done),
        Err(refusal) => Err(refusal),
    }
}

// Returns the reply to a build.
pub fn built(is_built: Result<bool, Refusal>) -> Replied {
    match is_built {
        Ok(is_built) => waited(is_built),
        Err(refusal) => Err(refusal),
    }
}

// Returns the reply to works that threads do.
pub fn worked(report: Result<Report, Refusal>) -> Replied {
    match report {
        Ok(report) => Ok(Reply::Worked(report.done, report.refused)),
        Err(refusal) => Err(refusal),
    }
}

// Returns the reply to a wait: `Done` if what it waited for came.
pub fn waited(is_so: bool) -> Replied {
    if is_so {
        Ok(Reply::Done)
    } else {
        Ok(Reply::Nothing)
    }
}

// Returns the values of an answer's first line.
fn first_line(answer: &Answer) -> Reply {
    match answer {
        Answer::Totals(lines) => match lines.as_slice() {
            [(_, count, sum), ..] => Reply::Totals(*count, *sum),
            _ => Reply::Nothing,
        },
        Answer::Extrema(lines) => match lines.as_slice() {
            [(_, least, greatest), ..] => Reply::Extrema(*least, *greatest),
            _ => Reply::Nothing,
        },
    }
}

fn is_key(key: &Option<Key>, letter: Letter) -> bool {
    match key {
        Some(Key::Text(text)) => text.as_str() == letter.text(),
        _ => false,
    }
}

// Returns the number of rows that an answer counts under a key.
fn count_under(answer: &Answer, letter: Letter) -> u64 {
    let Answer::Totals(lines) = answer else {
        return 0;
    };
    for line in lines.as_slice() {
        if is_key(&line.0, letter) {
            return line.1;
        }
    }
    0
}

// Returns the reply to a question to an aggregate: the first line of its answer.
pub fn answered(answer: Result<Answer, Refusal>) -> Replied {
    match answer {
        Ok(answer) => Ok(first_line(&answer)),
        Err(refusal) => Err(refusal),
    }
}

// Returns the reply to a question to an aggregate by key: the number of rows that its answer counts under each of the two keys.
pub fn answered_by_key(answer: Result<Answer, Refusal>) -> Replied {
    match answer {
        Ok(answer) => Ok(Reply::Pairs(
            count_under(&answer, Letter::P),
            count_under(&answer, Letter::Q),
        )),
        Err(refusal) => Err(refusal),
    }
}

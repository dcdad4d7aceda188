// Reads the first line of a script.
ghost use Rattle.std.specs.Prelude.{◌≡◌, ◌≤◌, ◌++◌, IfOk, IfSome, option_map, option_and_then, Some, None};
ghost use Rattle.std.specs.List.{slice_split};
ghost use Rattle.far_script.specs.OneRecord.{is_comma};
ghost use Rattle.far_script.specs.Openings.{kind_named, kinds_named, kinds_of, given_limits, limits_of, opening_in, between, threads_in, start_in, start_of, IsAllowedStart};

use super::words::Words;
use far_types::{Kind, Limits};
use std::alloc::{AllocError, Global};

/// The table of a line `schema GROUP KINDS`, with or without `PLACES EDITS INT_SEGMENTS INT_SIZE TEXT_SEGMENTS TEXT_SIZE`
/// at its end.
#[derive(Drop, Debug)]
pub struct Opening {
    /// The kinds of the columns.
    pub kinds: Vec<Kind>,
    /// The limits, not yet validated.
    pub limits: Limits,
}

/// The most sessions that a script may ask for.
pub const MAX_SESSIONS: u32 = 4;

/// The most edits that a script may ask for in each session.
pub const MAX_EDITS: u32 = 1_000;

/// The first line of a script.
#[derive(Drop, Debug)]
pub enum FirstLine {
    /// `schema ..`: opens a table
    Schema(Opening),
    /// `threads SESSIONS EDITS`: 1 to 4 sessions share a table, and each makes 1 to 1,000 edits
    Threads {
        /// The number of sessions.
        sessions: u32,
        /// The number of edits of each session.
        edits: u32,
    },
}

/// Returns the kind of a column that a word names: `int` or `text`.
pub fn read_kind(word: &str) -> Option<Kind>
    ensures { result ≡ kind_named word.now }
{
    if word == "int" {
        Some(Kind::Int)
    } else if word == "text" {
        Some(Kind::Text)
    } else {
        None
    }
}

/// Reads words `int` and `text` separated by commas.
fn read_kinds(alloc: Global, word: &str) -> Result<Option<Vec<Kind>>, AllocError>
    ensures kinds { IfOk result
        (λ found. option_map (λ kinds. kinds.items) found ≡ kinds_of word.now) }
{
    let mut kinds = Vec::new(alloc);
    let mut rest = word;
    while let Some((name, others)) = rest.split_once(',') {
        match read_kind(name) {
            Some(kind) => kinds.push(kind)?,
            None => return Ok(None),
        }
        rest = others;
    }
    match read_kind(rest) {
        Some(kind) => {
            kinds.push(kind)?;
            Ok(Some(kinds))
        }
        None => Ok(None),
    }
}

fn given_limits(group: u32, mut words: Words) -> Option<Limits>
    ensures { result ≡ given_limits group words.entry }
{
    let places = words.number()?;
    let edits = words.long_number()?;
    let int_segments = words.number()?;
    let int_size = words.number()?;
    let text_segments = words.number()?;
    let text_size = words.last_number()?;
    Some(Limits {
        group,
        places,
        edits,
        int_segments,
        int_size,
        text_segments,
        text_size,
    })
}

fn read_limits(group: u32, words: Words) -> Option<Limits>
    ensures { result ≡ limits_of group words.entry }
{
    if words.is_empty() {
        Some(Limits::in_groups_of(group))
    } else {
        given_limits(group, words)
    }
}

/// Reads `GROUP KINDS`, and the limits if they are given.
fn read_opening(alloc: Global, mut words: Words) -> Result<Option<Opening>, AllocError>
    ensures opening { IfOk result
        (λ found. option_map (λ o. (o.kinds.items, o.limits)) found ≡ opening_in words.entry) }
{
    let Some(group) = words.number() else {
        return Ok(None);
    };
    let Some(word) = words.word() else {
        return Ok(None);
    };
    let Some(kinds) = read_kinds(alloc, word)? else {
        return Ok(None);
    };
    match read_limits(group, words) {
        Some(limits) => Ok(Some(Opening { kinds, limits })),
        None => Ok(None),
    }
}

/// Returns the number if it is from `least` to `most`.
fn between(least: u32, most: u32, number: Option<u32>) -> Option<u32>
    ensures number { result ≡ between least most number }
    ensures within { IfSome result (λ n. (least ≤ n) × (n ≤ most)) }
{
    let number = number?;
    if least <= number && number <= most {
        Some(number)
    } else {
        None
    }
}

/// Reads `SESSIONS EDITS`.
fn read_threads(mut words: Words) -> Option<FirstLine>
    ensures threads { option_map start_of result ≡ threads_in words.entry }
    ensures within { IfSome result (λ first. IsAllowedStart (start_of first)) }
{
    let sessions = between(1, MAX_SESSIONS, words.number())?;
    let edits = between(1, MAX_EDITS, words.last_number())?;
    Some(FirstLine::Threads { sessions, edits })
}

/// Reads the first line of a script; `None` if the line is neither `schema` nor `threads`. Fails only if memory runs out.
pub fn first_line(alloc: Global, line: &str) -> Result<Option<FirstLine>, AllocError>
    ensures start { IfOk result (λ found. option_map start_of found ≡ start_in line.now) }
    ensures within { IfOk result
        (λ found. IfSome found (λ first. IsAllowedStart (start_of first))) }
{
    let mut words = Words::new(line);
    match words.word() {
        Some(word) if word == "schema" => match read_opening(alloc, words)? {
            Some(opening) => Ok(Some(FirstLine::Schema(opening))),
            None => Ok(None),
        },
        Some(word) if word == "threads" => Ok(read_threads(words)),
        _ => Ok(None),
    }
}

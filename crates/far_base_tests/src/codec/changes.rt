// Forms in which a text is replaced or appended.
ghost use Rattle.far_codec.specs.TextForm.{IsTextsForm};

use crate::cases::{Case, is_list};
use crate::codec::case::all_hold;
use crate::codec::forms::THREE_TEXTS;
use far_codec::{Elem, count_texts, form_with, form_with_next, length_with, length_with_next};
use far_types::{Refusal, Text};
use std::alloc::Global;

/// Returns the text of a word, or a missing one.
fn text(alloc: Global, word: Option<&str>) -> Result<Option<Text>, Refusal> {
    match word {
        Some(word) => Ok(Some(Text::new(String::from_str(alloc, word)?))),
        None => Ok(None),
    }
}

/// Returns the form with this text in place of text `i`, or appended if there is no text `i`; no bytes if that is too long.
fn changed_texts(
    alloc: Global,
    form: &[u8],
    i: usize,
    text: &Option<Text>,
) -> Result<Vec<u8>, Refusal>
    requires { IsTextsForm form.now }
{
    if i < count_texts(form) {
        if length_with(form, i, text) < 1000 {
            return form_with(alloc, form, i, text);
        }
    } else if length_with_next(form, text) < 1000 {
        return form_with_next(Vec::new(alloc), form, text);
    }
    Ok(Vec::new(alloc))
}

/// Returns the same for any bytes; no bytes if they are not a form.
fn changed(alloc: Global, bytes: &[u8], i: usize, word: Option<&str>) -> Result<Vec<u8>, Refusal> {
    let text = text(alloc, word)?;
    match <u8 as Elem>::unspell(alloc, bytes)? {
        Some(form) => changed_texts(alloc, form.as_slice(), i, &text),
        None => Ok(Vec::new(alloc)),
    }
}

/// A form, changes to it, and the resulting form.
struct Changes {
    from: &'static [u8],
    /// The changes: this text in place of text `i`, or appended if there is no text `i`.
    changes: &'static [(usize, Option<&'static str>)],
    to: &'static [u8],
}

impl Case for Changes {
    fn is_right(&self, alloc: Global) -> Result<bool, Refusal> {
        let mut form = Ok(Vec::from_slice(alloc, self.from)?);
        for (i, word) in self.changes {
            form = match &form {
                Ok(form) => changed(alloc, form.as_slice(), *i, *word),
                Err(refusal) => Err(*refusal),
            };
        }
        is_list(form, self.to)
    }
}

/// Starts from no texts. The form has a mask while a text is missing.
static CHANGES: [Changes; 1] = [Changes {
    from: &[1, 1, 0, 0, 0, 0],
    changes: &[
        (0, Some("longer")),
        (1, Some("")),
        (2, None),
        (0, Some("a")),
        (2, Some("bc")),
    ],
    to: THREE_TEXTS,
}];

#[test]
fn a_changed_text_stands_in_the_form_of_the_changed_list(rt: HostRuntime) {
    all_hold(&rt, rt.alloc(), &CHANGES);
}

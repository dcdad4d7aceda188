// Forms of texts.
ghost use Rattle.far_codec.specs.TextForm.{IsTextsForm};

use crate::cases::{Case, all};
use crate::codec::case::all_hold;
use crate::codec::forms::{E_ACUTE, MISSING_AND_A, THREE_TEXTS, are_elements, are_rewritten};
use far_codec::{Elem, Values, count_texts, decode, kind_of, text_at, text_of, texts_length};
use far_types::{Kind, Refusal};
use std::alloc::Global;

/// Returns whether the texts are lent from bytes known to be a form.
fn are_lent(form: &[u8], texts: &[Option<&str>]) -> bool
    requires { IsTextsForm form.now }
{
    for i in 0..texts.len() {
        if text_of(form, i) != texts[i] || text_at(form, i) != texts[i] {
            return false;
        }
    }
    count_texts(form) == texts.len() && text_at(form, texts.len()).is_none()
}

/// Returns whether these texts, and no more, are found in the bytes.
fn are_found(alloc: Global, bytes: &[u8], texts: &[Option<&str>]) -> Result<bool, Refusal> {
    match <u8 as Elem>::unspell(alloc, bytes)? {
        Some(form) => Ok(are_lent(form.as_slice(), texts)),
        None => Ok(false),
    }
}

/// Returns whether the bytes are read as texts whose form has the same length.
fn are_values(alloc: Global, bytes: &[u8]) -> Result<bool, Refusal> {
    let Some(Values::Texts(list)) = decode(alloc, bytes)? else {
        return Ok(false);
    };
    Ok(texts_length(list.as_slice()) == bytes.len())
}

/// A form made by hand, and its texts.
struct Texts {
    form: &'static [u8],
    texts: &'static [Option<&'static str>],
}

impl Case for Texts {
    /// Returns whether every call that reads or writes texts agrees that the bytes are their form.
    fn is_right(&self, alloc: Global) -> Result<bool, Refusal> {
        all(&[
            Ok(kind_of(self.form) == Some(Kind::Text)),
            are_rewritten(alloc, self.form, Kind::Text),
            are_elements(alloc, self.form, self.form),
            are_found(alloc, self.form, self.texts),
            are_values(alloc, self.form),
        ])
    }
}

static TEXTS: [Texts; 4] = [
    Texts {
        form: THREE_TEXTS,
        texts: &[Some("a"), Some(""), Some("bc")],
    },
    Texts {
        form: &[1, 1, 0, 0, 0, 0],
        texts: &[],
    },
    Texts {
        form: E_ACUTE,
        texts: &[Some("é")],
    },
    Texts {
        form: MISSING_AND_A,
        texts: &[None, Some("a")],
    },
];

#[test]
fn texts_are_written_and_read(rt: HostRuntime) {
    all_hold(&rt, rt.alloc(), &TEXTS);
}

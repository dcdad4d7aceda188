// Columns of numbers and of texts, as far forms and in a store.
ghost use Rattle.std.specs.Prelude.{◌≡◌, ◌<◌, ◌^◌, length, IfOk};
ghost use Rattle.far_codec.specs.Lent.{IsForm};
ghost use Rattle.far_codec.specs.TextForm.{IsTextsForm};

use far_codec::{Elem, encode_ints, form_with_next, length_with_next};
use far_store::{FarStore, Meter};
use far_types::{Refusal, Text};
use std::alloc::Global;

/// Puts these numbers into a store, and returns the ticket.
pub fn put_ints<S: FarStore>(
    alloc: Global,
    store: &S,
    numbers: &[Option<i64>],
) -> Result<S::Ticket, Refusal>
    requires { length numbers.now < 2 ^ 32 }
    ensures here { IfOk result (λ ticket. S.is_of ticket (S.store_id store.now)) }
    ensures form { IfOk result (λ ticket. IsForm (S.content ticket)) }
{
    let mut meter = Meter::new();
    let form = encode_ints(alloc, numbers)?;
    store.put(alloc, &mut meter, &form)
}

/// Returns a form of texts with one more, which is missing or short.
fn with_next(alloc: Global, form: &[u8], word: Option<&str>) -> Result<Vec<u8>, Refusal>
    requires { IsTextsForm form.now }
    ensures { IfOk result (λ form. IsTextsForm form.items) }
{
    let text = match word {
        Some(word) => Some(Text::new(String::from_str(alloc, word)?)),
        None => None,
    };
    if length_with_next(form, &text) < 1_000 {
        return form_with_next(Vec::new(alloc), form, &text);
    }
    Err(Refusal::TextTooLong)
}

/// Returns the form of these texts, each of which may be missing.
pub fn form_of(alloc: Global, words: &[Option<&str>]) -> Result<Vec<u8>, Refusal>
    ensures { IfOk result (λ form. IsTextsForm form.items) }
{
    let Some(mut form) = <u8 as Elem>::unspell(alloc, &[1, 1, 0, 0, 0, 0])? else {
        return Err(Refusal::WrongKind);
    };
    for word in words {
        form = with_next(alloc, form.as_slice(), *word)?;
    }
    Ok(form)
}

#![tactic(auto)]
//! Far forms: how the values of one column and row group are serialized for the far store. Also the element types of objects.

mod bytes;
mod changes;
mod elem;
mod flags;
mod head;
mod ints;
mod lengths;
mod lent;
mod lists;
mod mask;
mod numbers;
mod present;
mod text_forms;
mod texts;
mod values;
mod words;

pub use changes::{form_of, form_with, form_with_next};
pub use elem::Elem;
pub use ints::{encode_ints, ints_length};
pub use lengths::{length_with, length_with_next};
pub use lent::{LentInts, LentTexts, LentValues, lend_values};
pub use lists::{IntList, TextList};
pub use text_forms::{count_texts, encode_texts, text_at, text_of, texts_length};
pub use values::{Values, decode, kind_of};

// Forms with changed bytes.
use crate::cases::{all, must_be};
use crate::codec::forms::{
    E_ACUTE, MISSING_AND_A, ONE_AND_MINUS_ONE, ONE_AND_MISSING, THREE_TEXTS, are_rewritten,
};
use crate::codec::no_forms::is_no_form;
use far_codec::kind_of;
use far_types::Refusal;
use std::alloc::Global;

/// Returns whether bytes that are read are written as the same bytes, and all calls agree whether they are a form.
fn is_read_alike(alloc: Global, bytes: &[u8]) -> Result<bool, Refusal> {
    match kind_of(bytes) {
        Some(kind) => are_rewritten(alloc, bytes, kind),
        None => is_no_form(alloc, bytes),
    }
}

/// Returns whether all calls agree on a form with one of its bytes changed, then cut off there, and then with one byte
/// more.
fn is_changed(alloc: Global, form: &[u8], at: usize, byte: u8) -> Result<bool, Refusal> {
    let mut bytes = Vec::from_slice(alloc, form)?;
    if at < bytes.len() {
        bytes[at] = byte;
    }
    let changed = is_read_alike(alloc, bytes.as_slice());
    bytes.truncate(at);
    let cut = is_read_alike(alloc, bytes.as_slice());
    bytes.push(byte.wrapping_mul(85))?;
    all(&[changed, cut, is_read_alike(alloc, bytes.as_slice())])
}

static FORMS: [&[u8]; 5] = [
    ONE_AND_MINUS_ONE,
    ONE_AND_MISSING,
    THREE_TEXTS,
    E_ACUTE,
    MISSING_AND_A,
];

/// Returns whether all calls agree on each form, with each of its bytes changed to 0, 1, 2 and 3. No form has more than 25 bytes.
fn are_changed(alloc: Global) -> Result<bool, Refusal> {
    for i in 0..500 {
        let answer = is_changed(alloc, FORMS[i / 100], i % 100 / 4, (i % 4) as u8);
        if answer != Ok(true) {
            return answer;
        }
    }
    Ok(true)
}

#[test]
fn what_is_read_from_changed_forms_is_written_as_them(rt: HostRuntime) {
    must_be(&rt, are_changed(rt.alloc()), Ok(true));
}

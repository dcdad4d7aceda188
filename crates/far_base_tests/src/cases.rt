// Tables of cases, and comparison with expected answers.
//
// Tests pass values to these functions and return nothing themselves. Results are passed on as they are, refused or not,
// and the functions are generic over their types.
use far_types::Refusal;
use std::alloc::Global;
use std::process::Abort;

/// A case of a table of tests.
pub trait Case {
    /// Returns the case in words, if its values do not say it.
    fn name(&self) -> &'static str {
        ""
    }

    /// Returns whether all calls return what the case expects.
    fn is_right(&self, alloc: Global) -> Result<bool, Refusal>;
}

/// Ends the test at the first case that fails.
pub fn all_are_right<R: Abort, C: Case>(rt: &R, alloc: Global, cases: &[C]) {
    for (i, case) in cases.iter().enumerate() {
        let name = case.name();
        assert!(rt; case.is_right(alloc) == Ok(true), "case {i} {name}");
    }
}

/// Ends the test unless an answer is the expected one.
pub fn must_be<R: Abort, T: PartialEq + Drop>(rt: &R, answer: T, due: T) {
    assert!(rt; answer == due);
}

/// Returns the first result that is not `Ok(true)`, or `Ok(true)` if there is none.
pub fn all(answers: &[Result<bool, Refusal>]) -> Result<bool, Refusal> {
    for answer in answers {
        if *answer != Ok(true) {
            return *answer;
        }
    }
    Ok(true)
}

/// Returns whether a result is a list of these elements.
pub fn is_list<T: PartialEq + Drop>(
    made: Result<Vec<T>, Refusal>,
    list: &[T],
) -> Result<bool, Refusal> {
    match made {
        Ok(made) => Ok(made.as_slice() == list),
        Err(refusal) => Err(refusal),
    }
}

/// Returns whether a search found nothing.
pub fn is_nothing<T: Drop>(found: Result<Option<T>, Refusal>) -> Result<bool, Refusal> {
    match found {
        Ok(found) => Ok(found.is_none()),
        Err(refusal) => Err(refusal),
    }
}

// Reads aggregates.
ghost use Rattle.std.specs.Prelude.{◌≡◌, ◌<◌, IfOk, IfSome, IfNone, OnSome, option_map, option_and_then, slice_get, Some, None, false, is_none, length, ◌∷◌};
ghost use Rattle.far_script.specs.Words.{words_in};
ghost use Rattle.far_script.specs.Watches.{fold_of, operator_of, test_with, test_of, tests_of, with_tests, with_key, spec_of, compared, text_test, number_test};

use super::field::kind_of;
use super::number::{number, signed_number};
use super::words::Words;
use far_types::{Filter, Fold, Kind, Op, Spec, Test, Text};
use std::alloc::{AllocError, Global};

/// The operator of a test.
#[derive(Clone, Copy, Debug, PartialEq, Eq)]
pub enum Operator {
    /// `=`, `!=`, `<`, `<=`, `>`, `>=`
    Compares(Op),
    /// `^=`
    Begins,
}

fn read_fold(word: &str) -> Option<Fold>
    ensures { result ≡ fold_of word.now }
{
    if word == "totals" {
        Some(Fold::Totals)
    } else if word == "extrema" {
        Some(Fold::Extrema)
    } else {
        None
    }
}

fn read_operator(word: &str) -> Option<Operator>
    ensures { result ≡ operator_of word.now }
{
    if word == "=" {
        Some(Operator::Compares(Op::Eq))
    } else if word == "!=" {
        Some(Operator::Compares(Op::Ne))
    } else if word == "<" {
        Some(Operator::Compares(Op::Lt))
    } else if word == "<=" {
        Some(Operator::Compares(Op::Le))
    } else if word == ">" {
        Some(Operator::Compares(Op::Gt))
    } else if word == ">=" {
        Some(Operator::Compares(Op::Ge))
    } else if word == "^=" {
        Some(Operator::Begins)
    } else {
        None
    }
}

fn text(alloc: Global, constant: &str) -> Result<Text, AllocError>
    ensures text { IfOk result (λ text. text ≡ constant.now) }
{
    Ok(Text::new(String::from_str(alloc, constant)?))
}

/// Returns the test of a column with a comparison and a constant. The column's kind decides whether it tests numbers or
/// texts.
fn compare(
    alloc: Global,
    kind: Option<Kind>,
    column: u32,
    op: Op,
    constant: &str,
) -> Result<Option<Test>, AllocError>
    ensures test { IfOk result (λ test. test ≡ compared kind column op constant.now) }
{
    let value = signed_number(constant);
    let is_text = match kind {
        Some(Kind::Int) => value.is_none(),
        Some(Kind::Text) => op == Op::Eq,
        None => value.is_none() && op == Op::Eq,
    };
    if is_text {
        let text = text(alloc, constant)?;
        return Ok(Some(Test::TextIs { column, text }));
    }
    match (value, kind) {
        (Some(value), _) => Ok(Some(Test::Int { column, op, value })),
        (None, Some(_)) => Ok(None),
        (None, None) => Ok(Some(Test::Int {
            column,
            op,
            value: 0,
        })),
    }
}

/// Returns the test of a column with any operator and a constant; `None` if the constant is empty or does not fit.
fn test(
    alloc: Global,
    kind: Option<Kind>,
    column: u32,
    operator: Operator,
    constant: &str,
) -> Result<Option<Test>, AllocError>
    ensures test { IfOk result (λ test. test ≡ test_with kind column operator constant.now) }
{
    if constant.is_empty() {
        return Ok(None);
    }
    match operator {
        Operator::Compares(op) => compare(alloc, kind, column, op, constant),
        Operator::Begins => {
            let text = text(alloc, constant)?;
            Ok(Some(Test::TextBegins { column, text }))
        }
    }
}

/// Reads `COLUMN OPERATOR CONSTANT`.
fn read_test(
    alloc: Global,
    kinds: &[Kind],
    column: &str,
    operator: &str,
    constant: &str,
) -> Result<Option<Test>, AllocError>
    ensures test { IfOk result
        (λ test. test ≡ test_of kinds.now column.now operator.now constant.now) }
{
    let Some(column) = number(column) else {
        return Ok(None);
    };
    let Some(operator) = read_operator(operator) else {
        return Ok(None);
    };
    test(
        alloc,
        kind_of(kinds, column as usize),
        column,
        operator,
        constant,
    )
}

/// Reads one `if COLUMN OPERATOR CONSTANT` from the words.
fn take_test(alloc: Global, kinds: &[Kind], words: &mut Words) -> Result<Option<Test>, AllocError>
    requires { is_none words.old ≡ false }
    ensures test { IfOk result
        (λ found. IfSome found
        (λ test. tests_of kinds.now (words_in words.old)
        ≡ option_map (λ more. test ∷ more) (tests_of kinds.now (words_in words.new)))) }
    ensures taken { IfOk result
        (λ found. OnSome found (length (words_in words.new) < length (words_in words.old))) }
    ensures none { IfOk result
        (λ found. IfNone found (tests_of kinds.now (words_in words.old) ≡ None)) }
{
    let Some(clause) = words.word() else {
        return Ok(None);
    };
    let Some(column) = words.word() else {
        return Ok(None);
    };
    let Some(operator) = words.word() else {
        return Ok(None);
    };
    let Some(constant) = words.word() else {
        return Ok(None);
    };
    if clause != "if" {
        return Ok(None);
    }
    read_test(alloc, kinds, column, operator, constant)
}

/// Reads `[if COLUMN OPERATOR CONSTANT]..`.
fn read_tests(
    alloc: Global,
    kinds: &[Kind],
    mut words: Words,
) -> Result<Option<Vec<Test>>, AllocError>
    ensures tests { IfOk result
        (λ found. option_map (λ tests. tests.items) found
        ≡ tests_of kinds.now (words_in words.entry)) }
{
    let mut tests = Vec::new(alloc);
    while !words.is_empty() {
        match take_test(alloc, kinds, &mut words)? {
            Some(test) => tests.push(test)?,
            None => return Ok(None),
        }
    }
    Ok(Some(tests))
}

/// Returns the aggregate with the tests that the remaining words spell.
fn spec_with_tests(
    alloc: Global,
    kinds: &[Kind],
    fold: Fold,
    value: u32,
    key: Option<u32>,
    words: Words,
) -> Result<Option<Spec>, AllocError>
    ensures spec { IfOk result (λ spec. spec ≡ with_tests kinds.now fold value key words.entry) }
{
    match read_tests(alloc, kinds, words)? {
        Some(tests) => Ok(Some(Spec {
            fold,
            value,
            key,
            filter: Filter::new(tests),
        })),
        None => Ok(None),
    }
}

/// Reads `FOLD COLUMN [by COLUMN] [if COLUMN OPERATOR CONSTANT]..`; `None` if the words spell no aggregate. Fails only if
/// memory runs out.
pub fn spec(alloc: Global, kinds: &[Kind], mut words: Words) -> Result<Option<Spec>, AllocError>
    ensures spec { IfOk result (λ spec. spec ≡ spec_of kinds.now words.entry) }
{
    let Some(fold) = words.word() else {
        return Ok(None);
    };
    let Some(fold) = read_fold(fold) else {
        return Ok(None);
    };
    let Some(value) = words.number() else {
        return Ok(None);
    };
    if !words.next_is("by") {
        return spec_with_tests(alloc, kinds, fold, value, None, words);
    }
    let _by = words.word();
    match words.number() {
        Some(key) => spec_with_tests(alloc, kinds, fold, value, Some(key), words),
        None => Ok(None),
    }
}

// Aggregates as C passes them.
ghost use Rattle.std.specs.Prelude.{◌≡◌, ◌==◌, ◌<◌, ◌≤◌, IfErr, IfOk, OnOk, map, cond};
ghost use Rattle.std.specs.List.{All};
ghost use Rattle.std.specs.Option.{MatchOption};
ghost use Rattle.far_c.specs.Specs.{fold_of, key_of, op_of, spec_of, test_of};
ghost use Rattle.far_c.specs.Unreadable.{FirstFault, IsReadableSpec, IsReadableTest, SpecFault, TestFault};

use crate::unread::Unread;
use far_types::{Filter, Fold, Op, Refusal, Spec, Test};
use std::alloc::Global;

/// A test of a column, by a comparison with a number or a text.
#[repr(C)]
#[derive(Drop)]
pub struct FcTest<'a> {
    pub number: i64,
    pub text: &'a [u8],
    pub column: u32,
    pub op: u32,
}

/// An aggregate: its fold, its value column, its key column, and the tests that the folded rows pass.
#[repr(C)]
#[derive(Drop)]
pub struct FcSpec<'a> {
    pub tests: &'a [FcTest<'a>],
    pub fold: u32,
    pub value: u32,
    pub key: u32,
    pub has_key: bool,
}

/// The codes of the folds.
pub const TOTALS: u32 = 0;

pub const EXTREMA: u32 = 1;

/// The codes of the comparisons of texts. The codes 0 to 5 compare numbers.
const TEXT_IS: u32 = 6;

const TEXT_BEGINS: u32 = 7;

impl<'a> FcTest<'a> {
    fn read(&self, alloc: Global) -> Result<Test, Unread>
        ensures ok { IfOk result (λ test. test ≡ test_of self.now) }
        ensures readable { OnOk result (IsReadableTest self.now) }
        ensures fault { IfErr result (TestFault self.now) }
    {
        let column = self.column;
        if self.op != TEXT_IS && self.op != TEXT_BEGINS {
            let Some(op) = read_op(self.op) else {
                return Err(Unread::BadArgument);
            };
            return Ok(Test::Int {
                column,
                op,
                value: self.number,
            });
        }
        let Ok(text) = str::from_utf8(self.text) else {
            return Err(Unread::NoUtf8);
        };
        let test = if self.op == TEXT_IS {
            Test::text_is(alloc, column, text)
        } else {
            Test::text_begins(alloc, column, text)
        };
        match test {
            Ok(test) => Ok(test),
            Err(_) => Err(Unread::NoMemory),
        }
    }
}

// Returns the comparison of numbers with this code.
fn read_op(op: u32) -> Option<Op>
    ensures { MatchOption result (5 < op) (λ made. (made ≡ op_of op) × (op ≤ 5)) }
{
    match op {
        0 => Some(Op::Eq),
        1 => Some(Op::Ne),
        2 => Some(Op::Lt),
        3 => Some(Op::Le),
        4 => Some(Op::Gt),
        5 => Some(Op::Ge),
        _ => None,
    }
}

fn read_fold(fold: u32) -> Option<Fold>
    ensures { MatchOption result (1 < fold) (λ made. (made ≡ fold_of fold) × (fold ≤ 1)) }
{
    match fold {
        TOTALS => Some(Fold::Totals),
        EXTREMA => Some(Fold::Extrema),
        _ => None,
    }
}

impl<'a> FcSpec<'a> {
    /// Copies the aggregate for a table.
    pub fn read(&self, alloc: Global) -> Result<Spec, Unread>
        ensures ok { IfOk result (λ spec. spec ≡ spec_of self.now) }
        ensures readable { OnOk result (IsReadableSpec self.now) }
        ensures fault { IfErr result (SpecFault self.now) }
    {
        let Some(fold) = read_fold(self.fold) else {
            return Err(Unread::BadArgument);
        };
        let tests = read_tests(alloc, self.tests)?;
        Ok(Spec {
            fold,
            value: self.value,
            key: if self.has_key { Some(self.key) } else { None },
            filter: Filter::new(tests),
        })
    }
}

fn read_tests(alloc: Global, tests: &[FcTest<'_>]) -> Result<Vec<Test>, Unread>
    ensures ok { IfOk result (λ made. made.items ≡ map test_of tests.now) }
    ensures readable { OnOk result (All IsReadableTest tests.now) }
    ensures fault { IfErr result (FirstFault TestFault IsReadableTest tests.now) }
{
    let mut made = Vec::new(alloc);
    for test in tests {
        made.push(test.read(alloc)?)?;
    }
    Ok(made)
}

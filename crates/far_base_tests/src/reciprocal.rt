// Tests of `Reciprocal`: quotients with the right reciprocal and with a wrong one.
use far_types::Reciprocal;

static NUMBERS: [usize; 7] = [0, 1, 63, 64, 4_099, 16_777_215, 1_099_511_627_776];

/// Returns whether a number is divided by 64 with the reciprocal of 64, and with that of 3.
fn is_divided(number: usize) -> bool {
    let hint = Reciprocal::new(64);
    hint.quotient(number, 64) == number / 64
        && hint.remainder(number, 64) == number % 64
        && Reciprocal::new(3).quotient(number, 64) == number / 64
}

fn are_divided() -> bool {
    for number in &NUMBERS {
        if !is_divided(*number) {
            return false;
        }
    }
    true
}

#[test]
fn a_quotient_is_right_whatever_the_hint(rt: HostRuntime) {
    assert!(rt; are_divided());
}

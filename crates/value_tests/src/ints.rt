use py_ints::{
    IntEnd, IntOp, IntText, IntUnary, int_binary, int_compare, int_unary, read_int, write_int,
};
use std::cmp::Ordering;
use std::test::Fail;

const GREATEST: &[u8] = b"170141183460469231731687303715884105727";

const LEAST: &[u8] = b"-170141183460469231731687303715884105728";

#[test]
fn ints_that_texts_spell(rt: HostRuntime) {
    assert!(rt; read_int(b"0") == Ok(0) && read_int(b"-0") == Ok(0) && read_int(b"+7") == Ok(7));
    assert!(rt;
        read_int(b"-12") == Ok(-12)
            && read_int(b"00000000000000000000000000000000000000000907") == Ok(907)
    );
    assert_eq!(rt; read_int(GREATEST), Ok(i128::MAX));
    assert_eq!(rt; read_int(LEAST), Ok(i128::MIN));
}

#[test]
fn texts_of_no_int(rt: HostRuntime) {
    assert!(rt; read_int(b"") == Err(IntText::Shape) && read_int(b"-") == Err(IntText::Shape));
    assert!(rt; read_int(b"+-1") == Err(IntText::Shape) && read_int(b" 1") == Err(IntText::Shape));
    assert!(rt;
        read_int(b"1_000") == Err(IntText::Shape) && read_int(b"12:") == Err(IntText::Shape)
    );
    assert!(rt; read_int(b"99999999999999999999999999999999999999999x") == Err(IntText::Shape));
}

#[test]
fn ints_that_are_too_wide(rt: HostRuntime) {
    let wide = Err(IntText::Wide);
    assert_eq!(rt; read_int(b"170141183460469231731687303715884105728"), wide);
    assert_eq!(rt; read_int(b"-170141183460469231731687303715884105729"), wide);
    assert_eq!(rt; read_int(b"340282366920938463463374607431768211456"), wide);
}

#[test]
fn ints_that_are_written(rt: HostRuntime) -> Result<(), Fail> {
    let mut out = b"x=".to_vec(rt.alloc())?;
    write_int(0, &mut out)?;
    out.push(b' ')?;
    write_int(-48, &mut out)?;
    assert_eq!(rt; &out[..], b"x=0 -48".as_slice());

    let mut least = Vec::new(rt.alloc());
    write_int(i128::MIN, &mut least)?;
    assert_eq!(rt; &least[..], LEAST);
    Ok(())
}

/// `a op b`, with the answer that Python gives.
fn gives(op: IntOp, a: i128, b: i128, answer: i128) -> bool {
    int_binary(op, a, b) == Ok(answer)
}

fn ends(op: IntOp, a: i128, b: i128, end: IntEnd) -> bool {
    int_binary(op, a, b) == Err(end)
}

const MAX: i128 = i128::MAX;

const MIN: i128 = i128::MIN;

/// 10 to the power 30.
const HUGE: i128 = 1_000_000_000_000_000_000_000_000_000_000;

#[test]
fn quotients_and_remainders(rt: HostRuntime) {
    assert!(rt; gives(IntOp::FloorDiv, -7, 2, -4) && gives(IntOp::Mod, -7, 3, 2));
    assert!(rt; gives(IntOp::FloorDiv, 7, -2, -4) && gives(IntOp::Mod, 7, -2, -1));
    assert!(rt; gives(IntOp::FloorDiv, -7, -2, 3) && gives(IntOp::Mod, -7, -2, -1));
    assert!(rt; gives(IntOp::FloorDiv, -6, 2, -3) && gives(IntOp::Mod, 6, -2, 0));
    assert!(rt; ends(IntOp::FloorDiv, MIN, -1, IntEnd::BeyondInt) && gives(IntOp::Mod, MIN, -1, 0));
    assert!(rt; gives(IntOp::FloorDiv, MAX, MIN, -1) && gives(IntOp::Mod, MAX, MIN, -1));
    assert!(rt;
        ends(IntOp::FloorDiv, 1, 0, IntEnd::DivZero) && ends(IntOp::Mod, 0, 0, IntEnd::DivZero)
    );
    assert!(rt;
        ends(IntOp::Div, 5, 0, IntEnd::DivZero) && ends(IntOp::Div, 5, 1, IntEnd::BeyondFloat)
    );
}

#[test]
fn sums_and_products(rt: HostRuntime) {
    assert!(rt; gives(IntOp::Add, MAX, MIN, -1) && ends(IntOp::Add, MAX, 1, IntEnd::BeyondInt));
    assert!(rt; gives(IntOp::Sub, -1, MAX, MIN) && ends(IntOp::Sub, 0, MIN, IntEnd::BeyondInt));
    assert!(rt; gives(IntOp::Mul, MIN, 1, MIN) && ends(IntOp::Mul, MIN, -1, IntEnd::BeyondInt));
    assert!(rt;
        int_unary(IntUnary::Neg, MAX) == Ok(-MAX) && int_unary(IntUnary::Pos, MIN) == Ok(MIN)
    );
    assert!(rt; int_unary(IntUnary::Neg, MIN) == Err(IntEnd::BeyondInt));
    assert!(rt;
        int_unary(IntUnary::Invert, 5) == Ok(-6) && int_unary(IntUnary::Invert, MIN) == Ok(MAX)
    );
    assert!(rt; int_compare(MIN, -1) == Ordering::Less && int_compare(3, 3) == Ordering::Equal);
}

#[test]
fn powers(rt: HostRuntime) {
    assert!(rt; gives(IntOp::Pow, 2, 10, 1024) && gives(IntOp::Pow, -3, 3, -27));
    assert!(rt; gives(IntOp::Pow, -2, 127, MIN) && ends(IntOp::Pow, 2, 127, IntEnd::BeyondInt));
    assert!(rt;
        gives(IntOp::Pow, 0, 0, 1) && gives(IntOp::Pow, 0, HUGE, 0) && gives(IntOp::Pow, 1, MAX, 1)
    );
    assert!(rt; gives(IntOp::Pow, -1, HUGE, 1) && gives(IntOp::Pow, -1, MAX, -1));
    assert!(rt; ends(IntOp::Pow, 2, HUGE, IntEnd::BeyondInt));
    assert!(rt;
        ends(IntOp::Pow, 0, -1, IntEnd::DivZero) && ends(IntOp::Pow, 2, -1, IntEnd::BeyondFloat)
    );
}

#[test]
fn shifts(rt: HostRuntime) {
    assert!(rt;
        gives(IntOp::Shl, 1, 126, MAX / 2 + 1) && ends(IntOp::Shl, 1, 127, IntEnd::BeyondInt)
    );
    assert!(rt; gives(IntOp::Shl, -1, 127, MIN) && ends(IntOp::Shl, -1, 128, IntEnd::BeyondInt));
    assert!(rt; gives(IntOp::Shl, 0, HUGE, 0) && ends(IntOp::Shl, MIN, 1, IntEnd::BeyondInt));
    assert!(rt;
        gives(IntOp::Shr, -5, 1, -3)
            && gives(IntOp::Shr, 5, 1, 2)
            && gives(IntOp::Shr, MIN, 127, -1)
    );
    assert!(rt; gives(IntOp::Shr, MAX, 1000, 0) && gives(IntOp::Shr, MIN, HUGE, -1));
    assert!(rt;
        ends(IntOp::Shl, 1, -1, IntEnd::NegShift) && ends(IntOp::Shr, 0, MIN, IntEnd::NegShift)
    );
}

#[test]
fn bits(rt: HostRuntime) {
    assert!(rt; gives(IntOp::And, -1, 255, 255) && gives(IntOp::And, -256, 4095, 3840));
    assert!(rt; gives(IntOp::Or, 12, 10, 14) && gives(IntOp::Or, MIN, MAX, -1));
    assert!(rt; gives(IntOp::Xor, 12, 10, 6) && gives(IntOp::Xor, -1, 1, -2));
}

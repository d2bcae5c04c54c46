use super::same;
use tr_text::TextBuffer;

#[test]
fn pieces_come_before_the_text(rt: HostRuntime) {
    let mut text = TextBuffer::<8>::new();
    assert!(rt; text.as_bytes().is_empty());
    text.prepend(b"fgh");
    text.prepend(b"");
    text.prepend(b"abcde");
    same(&rt, &text.as_bytes(), &b"abcdefgh".as_slice());
}

#[test]
fn numbers_are_decimal(rt: HostRuntime) {
    let mut text = TextBuffer::<64>::new();
    text.prepend_number(0);
    text.prepend(b" ");
    text.prepend_number(18446744073709551615);
    same(&rt, &text.as_bytes(), &b"18446744073709551615 0".as_slice());
}

#[test]
fn signed_numbers_have_a_sign_below_0(rt: HostRuntime) {
    let mut text = TextBuffer::<128>::new();
    text.prepend_signed(-2147483648);
    text.prepend(b" ");
    text.prepend_signed(2147483647);
    text.prepend(b" ");
    text.prepend_signed(0);
    text.prepend(b" ");
    text.prepend_signed(-1);
    same(
        &rt,
        &text.as_bytes(),
        &b"-1 0 2147483647 -2147483648".as_slice(),
    );
}

#[test]
fn hexadecimal_numbers_have_no_zero_before_others(rt: HostRuntime) {
    let mut text = TextBuffer::<64>::new();
    text.prepend_hexadecimal(0xffffffff);
    text.prepend(b" ");
    text.prepend_hexadecimal(0x80137f);
    text.prepend(b" ");
    text.prepend_hexadecimal(0x10);
    text.prepend(b" ");
    text.prepend_hexadecimal(0);
    same(&rt, &text.as_bytes(), &b"0 10 80137f ffffffff".as_slice());
}

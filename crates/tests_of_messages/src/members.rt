//! Members that are known.
use http_json::{put, put_decimal, put_flag, put_number, put_quoted, put_signed, put_text};

const ROOM: usize = 1_024;

/// Texts, and what is written for each.
const TEXTS: &[(&[u8], &[u8])] = &[
    (b"", b"\"\""),
    (b"ANN LEE", b"\"ANN LEE\""),
    (b"a\"b\\c", b"\"a\\\"b\\\\c\""),
    (b"\x08\x0c\n\r\t", b"\"\\b\\f\\n\\r\\t\""),
    (b"\x00\x1f\x7f/", b"\"\\u0000\\u001f\x7f/\""),
];

#[test]
fn texts_are_escaped(rt: HostRuntime) {
    for &(value, quoted) in TEXTS {
        let mut text = Vec::with_capacity(rt.alloc(), ROOM).expect(&rt, "memory");
        assert!(rt; text.capacity() >= ROOM && value.len() < 20);
        put_quoted(&mut text, value);
        assert!(rt; text.as_slice() == quoted, "{quoted:?}");
    }
}

const MEMBERS: &[u8] =
    b"{\"cents\":18446744073709551615,\"late\":true,\"over\":false,\"ref\":\"PAY-1\"}";

#[test]
fn members_stand_after_one_another(rt: HostRuntime) {
    let mut text = Vec::with_capacity(rt.alloc(), ROOM).expect(&rt, "memory");
    assert!(rt; text.capacity() >= ROOM);
    put(&mut text, b"{");
    put_number(&mut text, false, b"cents", u64::MAX);
    put_flag(&mut text, true, b"late", true);
    put_flag(&mut text, true, b"over", false);
    put_text(&mut text, true, b"ref", b"PAY-1");
    put(&mut text, b"}");
    assert!(rt; text.as_slice() == MEMBERS);
}

const NUMBERS: &[u8] =
    b"\"balance\":\"-170141183460469231731687303715884105728\",\"cents\":-9223372036854775808,\"credit\":\"340282366920938463463374607431768211455\",\"zero\":0";

#[test]
fn numbers_below_zero(rt: HostRuntime) {
    let mut text = Vec::with_capacity(rt.alloc(), ROOM).expect(&rt, "memory");
    assert!(rt; text.capacity() >= ROOM);
    put_decimal(&mut text, false, b"balance", i128::MIN);
    put_signed(&mut text, true, b"cents", i64::MIN);
    put_decimal(&mut text, true, b"credit", u128::MAX);
    put_signed(&mut text, true, b"zero", 0);
    assert!(rt; text.as_slice() == NUMBERS);
}

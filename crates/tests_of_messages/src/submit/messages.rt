//! Whole messages, to the last byte.
use super::{HEADER, Made, OPTIONS, ends, list_makes, make};
use cli_submit::{SubmitOptions, submit_message};

/// A credit of 1500.00 to a checking account, and the bytes that a server wants for it.
const PAY_1: &[u8] = b"routing,account,kind,prenote,cents,id,name,info
091000019,123456789,checking,,150000,E1,ANN LEE,
";

const PAY_1_MESSAGE: &[u8] =
    b"POST /c/MILL01/submissions HTTP/1.1\r\nHost: 127.0.0.1\r\nX-Desk-Key: mill-street-key\r\nContent-Length: 209\r\n\r\n{\"day\":\"2025-01-10\",\"description\":\"PAYROLL\",\"direction\":\"credit\",\"entries\":[{\"account\":\"123456789\",\"cents\":150000,\"id\":\"E1\",\"kind\":\"checking\",\"name\":\"ANN LEE\",\"routing\":\"091000019\"}],\"ref\":\"PAY-1\",\"sec\":\"PPD\"}";

#[test]
fn a_pay_run(rt: HostRuntime) {
    let message = submit_message(rt.alloc(), &OPTIONS, PAY_1).expect(&rt, "a message");
    assert!(rt; message.as_slice() == PAY_1_MESSAGE);
}

#[test]
fn a_list_without_entries(rt: HostRuntime) {
    list_makes(&rt, HEADER, b"[]");
}

const PRENOTES_AND_INFORMATION: &[Made] = &[
    (
        b"091000019,1,checking,yes,0,E1,ANN LEE,\n",
        b"[{\"account\":\"1\",\"cents\":0,\"id\":\"E1\",\"kind\":\"checking\",\"name\":\"ANN LEE\",\"prenote\":true,\"routing\":\"091000019\"}]",
    ),
    (
        b"091000019,1,checking,,5,E1,ANN LEE,INVOICE 7\n",
        b"[{\"account\":\"1\",\"cents\":5,\"id\":\"E1\",\"info\":\"INVOICE 7\",\"kind\":\"checking\",\"name\":\"ANN LEE\",\"routing\":\"091000019\"}]",
    ),
    (
        b"091000019,1,checking,yes,0,,A,B\n",
        b"[{\"account\":\"1\",\"cents\":0,\"id\":\"\",\"info\":\"B\",\"kind\":\"checking\",\"name\":\"A\",\"prenote\":true,\"routing\":\"091000019\"}]",
    ),
];

#[test]
fn prenotes_and_information(rt: HostRuntime) {
    make(&rt, PRENOTES_AND_INFORMATION);
}

const CENTS: &[Made] = &[
    (
        b"091000019,1,savings,,0002500,,BOB,\n",
        b"[{\"account\":\"1\",\"cents\":2500,\"id\":\"\",\"kind\":\"savings\",\"name\":\"BOB\",\"routing\":\"091000019\"}]",
    ),
    (
        b"091000019,1,savings,,999999999999999999,,BOB,\n",
        b"[{\"account\":\"1\",\"cents\":999999999999999999,\"id\":\"\",\"kind\":\"savings\",\"name\":\"BOB\",\"routing\":\"091000019\"}]",
    ),
];

#[test]
fn cents_are_printed_as_their_value(rt: HostRuntime) {
    make(&rt, CENTS);
}

const SEVERAL: &[Made] = &[(
    b"1,2,3,,4,5,6,\n7,8,9,,10,11,12,\n",
    b"[{\"account\":\"2\",\"cents\":4,\"id\":\"5\",\"kind\":\"3\",\"name\":\"6\",\"routing\":\"1\"},{\"account\":\"8\",\"cents\":10,\"id\":\"11\",\"kind\":\"9\",\"name\":\"12\",\"routing\":\"7\"}]",
)];

#[test]
fn several_entries_stand_in_their_order(rt: HostRuntime) {
    make(&rt, SEVERAL);
}

#[test]
fn texts_that_json_has_to_escape(rt: HostRuntime) {
    let options = SubmitOptions {
        reference: "A\"B\\C",
        ..OPTIONS
    };
    let end = b"\"entries\":[],\"ref\":\"A\\\"B\\\\C\",\"sec\":\"PPD\"}";
    ends(&rt, &options, HEADER, end);
}

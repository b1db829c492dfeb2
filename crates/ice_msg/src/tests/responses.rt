//! Responses, read and written.
use crate::{Bad, Refusal, Response, SignOn, read_response, write_response};
use arrayvec::ArrayVec;

/// What stands before the name in a sign-on.
const HEAD: [u8; 15] = [
    0x01, 0x01, 0x00, 0x06, 0x01, 0x01, 0x00, 0x06, 0x01, 0x00, 0x00, 0x00, 0x00, 0x00, 0x01,
];

/// The sign-on of the JTAGICE mkII.
const SIGN_ON: [u8; 28] = [
    0x86, 0x01, 0x01, 0x00, 0x06, 0x01, 0x01, 0x00, 0x06, 0x01, 0x00, 0x00, 0x00, 0x00, 0x00, 0x01,
    0x4A, 0x54, 0x41, 0x47, 0x49, 0x43, 0x45, 0x6D, 0x6B, 0x49, 0x49, 0x00,
];

#[test]
fn reads_responses(rt: HostRuntime) {
    let rows: [(&[u8], Result<Response<'_>, Bad>); 16] = [
        (&[], Err(Bad::Code)),
        (&[0x80], Ok(Response::Okay)),
        (&[0x80, 0x00], Err(Bad::Length)),
        (&[0x82], Ok(Response::Memory(&[]))),
        (&[0x82, 0x0C, 0x94], Ok(Response::Memory(&[0x0C, 0x94]))),
        (&[0x81], Ok(Response::Parameter(&[]))),
        (&[0x81, 0x00, 0x06], Ok(Response::Parameter(&[0x00, 0x06]))),
        (&[0x84, 1, 2, 3, 4], Ok(Response::Pc(0x0403_0201))),
        (&[0x84, 1, 2, 3], Err(Bad::Length)),
        (&[0x84, 1, 2, 3, 4, 5], Err(Bad::Length)),
        (&[0xE0, 2, 0, 0, 0, 1], Err(Bad::Code)),
        (&[0x9F], Err(Bad::Code)),
        (&[0xA4], Err(Bad::Code)),
        (&[0xA7], Err(Bad::Code)),
        (&[0xA9], Err(Bad::Code)),
        (&[0xAB], Err(Bad::Code)),
    ];
    for (body, wanted) in rows {
        assert_eq!(rt; read_response(body), wanted, "at {body:?}");
    }
}

#[test]
fn reads_refusals(rt: HostRuntime) {
    let rows = [
        (0xA0, Refusal::Failed),
        (0xA1, Refusal::IllegalParameter),
        (0xA2, Refusal::IllegalMemoryType),
        (0xA3, Refusal::IllegalMemoryRange),
        (0xA5, Refusal::IllegalMcuState),
        (0xA6, Refusal::IllegalValue),
        (0xA8, Refusal::IllegalBreakpoint),
        (0xAA, Refusal::IllegalCommand),
    ];
    for (code, refusal) in rows {
        assert_eq!(rt;
            read_response(&[code]),
            Ok(Response::Refused(refusal)),
            "at {code}"
        );
        assert_eq!(rt; read_response(&[code, 0x00]), Err(Bad::Length), "at {code}");
        let mut out = ArrayVec::new();
        write_response(&Response::Refused(refusal), &mut out);
        assert_eq!(rt; out.as_slice(), [code].as_slice());
    }
}

#[test]
fn reads_at_most_4105_bytes_of_a_parameter(rt: HostRuntime) {
    let mut body = [0x55; 4107];
    body[0] = 0x81;
    assert_eq!(rt; read_response(&body), Err(Bad::Length));
    let most = Response::Parameter(&body[1..4106]);
    assert_eq!(rt; read_response(&body[..4106]), Ok(most));
}

#[test]
fn reads_at_most_4096_bytes_of_memory(rt: HostRuntime) {
    let mut body = [0x55; 4098];
    body[0] = 0x82;
    assert_eq!(rt; read_response(&body), Err(Bad::Length));
    let most = Response::Memory(&body[1..4097]);
    assert_eq!(rt; read_response(&body[..4097]), Ok(most));
}

#[test]
fn reads_names_with_one_zero_at_the_end(rt: HostRuntime) {
    let jtagice = Response::SignOn(SignOn {
        head: HEAD,
        name: b"JTAGICEmkII",
    });
    assert_eq!(rt; read_response(&SIGN_ON), Ok(jtagice));
    assert_eq!(rt;
        read_response(&SIGN_ON[..27]),
        Err(Bad::Length),
        "the zero is missing"
    );
    let mut longer = [0x00; 29];
    longer[..28].copy_from_slice(&SIGN_ON);
    assert_eq!(rt;
        read_response(&longer),
        Err(Bad::Length),
        "the name has a zero"
    );
    let unnamed = Response::SignOn(SignOn {
        head: [0x00; 15],
        name: &[],
    });
    let mut short = [0x00; 17];
    short[0] = 0x86;
    assert_eq!(rt; read_response(&short), Ok(unnamed));
    assert_eq!(rt; read_response(&short[..16]), Err(Bad::Length));
    assert_eq!(rt; read_response(&short[..1]), Err(Bad::Length));
}

#[test]
fn reads_names_that_fill_the_body(rt: HostRuntime) {
    let mut body = [0x41; 4107];
    body[0] = 0x86;
    body[4106] = 0x00;
    assert_eq!(rt; read_response(&body), Err(Bad::Length));
    body[4105] = 0x00;
    let full = Response::SignOn(SignOn {
        head: [0x41; 15],
        name: &body[16..4105],
    });
    assert_eq!(rt; read_response(&body[..4106]), Ok(full));
}

#[test]
fn writes_responses(rt: HostRuntime) {
    let jtagice = Response::SignOn(SignOn {
        head: HEAD,
        name: b"JTAGICEmkII",
    });
    let mut out = ArrayVec::new();
    write_response(&jtagice, &mut out);
    assert_eq!(rt; out.as_slice(), SIGN_ON.as_slice());
    let mut okay = ArrayVec::new();
    write_response(&Response::Okay, &mut okay);
    assert_eq!(rt; okay.as_slice(), [0x80].as_slice());
    let mut memory = ArrayVec::new();
    write_response(&Response::Memory(&[0x0C, 0x94]), &mut memory);
    assert_eq!(rt; memory.as_slice(), [0x82, 0x0C, 0x94].as_slice());
    let mut parameter = ArrayVec::new();
    write_response(&Response::Parameter(&[0x88, 0x13]), &mut parameter);
    assert_eq!(rt; parameter.as_slice(), [0x81, 0x88, 0x13].as_slice());
    let mut counter = ArrayVec::new();
    write_response(&Response::Pc(0x0403_0201), &mut counter);
    assert_eq!(rt; counter.as_slice(), [0x84, 1, 2, 3, 4].as_slice());
}

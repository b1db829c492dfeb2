use super::*;

/// The sign-on and the sign-off frame as a host sends them.
const SIGN_ON: [u8; 11] = [
    0x1B, 0x00, 0x00, 0x01, 0x00, 0x00, 0x00, 0x0E, 0x01, 0xF3, 0x97,
];

const SIGN_OFF: [u8; 11] = [
    0x1B, 0x00, 0x00, 0x01, 0x00, 0x00, 0x00, 0x0E, 0x00, 0x7A, 0x86,
];

#[test]
fn check_of_nine_digits(rt: HostRuntime) {
    assert_eq!(rt; crc(b"123456789"), 0x6F91);
}

#[test]
fn sign_on_and_sign_off(rt: HostRuntime) {
    for (bytes, code) in [(SIGN_ON, 1), (SIGN_OFF, 0)] {
        let mut body = ArrayVec::new();
        body.push(code);
        let mut out = ArrayVec::new();
        write_frame(&Frame { seq: 0, body }, &mut out);
        assert_eq!(rt; out.as_slice(), bytes.as_slice());
        match read_frame(&bytes) {
            Cut::Whole(frame, taken) => {
                assert_eq!(rt; taken, 11);
                assert_eq!(rt; frame.seq, 0);
                assert_eq!(rt; frame.body.as_slice(), [code].as_slice());
            }
            _ => assert!(rt; false, "not whole"),
        }
        let mut wrong = bytes;
        wrong[10] = !wrong[10];
        assert!(rt; matches!(read_frame(&wrong), Cut::Junk));
    }
}

#[test]
fn proper_prefixes_are_partial(rt: HostRuntime) {
    for length in 0..SIGN_ON.len() {
        assert!(rt; matches!(read_frame(&SIGN_ON[..length]), Cut::Partial));
    }
}

#[test]
fn size_too_large_is_junk_at_once(rt: HostRuntime) {
    assert!(rt; matches!(read_frame(&[0x1B, 0x00, 0x00, 0x0B, 0x10]), Cut::Junk));
    assert!(rt; matches!(read_frame(&[0x1B, 0x00, 0x00, 0x0A, 0x10]), Cut::Partial));
}

#[test]
fn longest_body(rt: HostRuntime) {
    let mut body = ArrayVec::new();
    for k in 0..4106u16 {
        assert!(rt; body.try_push((k % 256) as u8).is_ok());
    }
    let mut out = ArrayVec::new();
    write_frame(&Frame { seq: 0x1234, body }, &mut out);
    assert_eq!(rt; out.len(), 4116);
    match read_frame(out.as_slice()) {
        Cut::Whole(frame, taken) => {
            assert_eq!(rt; taken, 4116);
            assert_eq!(rt; frame.seq, 0x1234);
            assert_eq!(rt; frame.body.len(), 4106);
        }
        _ => assert!(rt; false, "not whole"),
    }
}

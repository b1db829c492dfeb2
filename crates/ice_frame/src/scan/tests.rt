ghost use Rattle.std.specs.Prelude.{◌≤◌, length};

use super::*;

/// The sign-on frame as a host sends it.
const SIGN_ON: [u8; 11] = [
    0x1B, 0x00, 0x00, 0x01, 0x00, 0x00, 0x00, 0x0E, 0x01, 0xF3, 0x97,
];

/// The answer to the last byte, and to the others that more is missing; each is one look.
fn answers(bytes: &[u8], last: Scanned) -> bool
    requires { length bytes.now ≤ 11 }
{
    let mut scan = Scan::start();
    let mut looks = Looks::new();
    let mut answer = Scanned::More;
    for byte in bytes {
        if answer != Scanned::More {
            return false;
        }
        answer = scan.byte(*byte, &mut looks);
    }
    answer == last && looks.count() == bytes.len() as u64
}

#[test]
fn sign_on_is_whole(rt: HostRuntime) {
    assert!(rt; answers(&SIGN_ON, Scanned::Whole));
    for length in 0..SIGN_ON.len() {
        assert!(rt; answers(&SIGN_ON[..length], Scanned::More));
    }
}

#[test]
fn a_wrong_byte_is_junk_at_once(rt: HostRuntime) {
    assert!(rt; answers(&[0x1A], Scanned::Junk));
    assert!(rt; answers(&[0x1B, 0x00, 0x00, 0x0B, 0x10], Scanned::Junk));
    assert!(rt;
        answers(
            &[0x1B, 0x00, 0x00, 0x0A, 0x10, 0x00, 0x00, 0x0F],
            Scanned::Junk
        )
    );
    for place in 9..SIGN_ON.len() {
        let mut wrong = SIGN_ON;
        wrong[place] = !wrong[place];
        assert!(rt; answers(&wrong[..=place], Scanned::Junk));
    }
}

#[test]
fn upper_bytes_of_the_size(rt: HostRuntime) {
    assert!(rt; answers(&[0x1B, 0x00, 0x00, 0x01, 0x00, 0x01], Scanned::Junk));
    assert!(rt; answers(&[0x1B, 0x00, 0x00, 0x01, 0x00, 0x00, 0x01], Scanned::Junk));
}

ghost use Rattle.std.specs.Prelude.{◌<◌};

use super::*;
use arrayvec::ArrayVec;
use ice_frame::write_frame;

/// The sign-on frame as a host sends it.
const SIGN_ON: [u8; 11] = [
    0x1B, 0x00, 0x00, 0x01, 0x00, 0x00, 0x00, 0x0E, 0x01, 0xF3, 0x97,
];

/// A frame whose size is wrong, with the sign-on frame inside it.
const DAMAGED: [u8; 21] = [
    0x1B, 0x05, 0x00, 0x0B, 0x00, 0x00, 0x00, 0x0E, 0x1B, 0x00, 0x00, 0x01, 0x00, 0x00, 0x00, 0x0E,
    0x01, 0xF3, 0x97, 0x00, 0x00,
];

/// A header with a size above the limit.
const TOO_LARGE: [u8; 8] = [0x1B, 0x00, 0x00, 0xFF, 0xFF, 0xFF, 0xFF, 0x0E];

/// A header of the largest size, with no body behind it.
const LARGEST: [u8; 8] = [0x1B, 0x00, 0x00, 0x0A, 0x10, 0x00, 0x00, 0x0E];

/// The sign-on frame is handed out, and behind it so many bytes stay, and so many were dropped.
fn hands_sign_on(receiver: &mut Receiver, rest: usize, dropped: u64) -> bool {
    match receiver.next() {
        Some(frame) => {
            frame.seq == 0
                && frame.body.as_slice() == [0x01].as_slice()
                && receiver.rest() == rest
                && receiver.dropped() == dropped
        }
        None => false,
    }
}

#[test]
fn sign_on_in_one_piece(rt: HostRuntime) {
    let mut receiver = Receiver::new(rt.alloc()).expect(&rt, "memory");
    assert!(rt; receiver.next().is_none());
    assert!(rt; !receiver.waits());
    assert_eq!(rt; receiver.feed(&SIGN_ON), 11);
    assert!(rt; receiver.waits());
    assert_eq!(rt; receiver.rest(), 11);
    assert!(rt; hands_sign_on(&mut receiver, 0, 0));
    assert!(rt; receiver.next().is_none());
}

#[test]
fn sign_on_byte_by_byte(rt: HostRuntime) {
    let mut receiver = Receiver::new(rt.alloc()).expect(&rt, "memory");
    for byte in &SIGN_ON {
        assert!(rt; receiver.next().is_none());
        assert_eq!(rt; receiver.feed(&[*byte]), 1);
    }
    assert!(rt; hands_sign_on(&mut receiver, 0, 0));
}

#[test]
fn frame_inside_a_damaged_one(rt: HostRuntime) {
    let mut receiver = Receiver::new(rt.alloc()).expect(&rt, "memory");
    assert_eq!(rt; receiver.feed(&DAMAGED), 20);
    assert_eq!(rt; receiver.dropped(), 8);
    assert_eq!(rt; receiver.rest(), 12);
    assert!(rt; hands_sign_on(&mut receiver, 0, 9));
    assert_eq!(rt; receiver.feed(&DAMAGED[20..]), 1);
    assert_eq!(rt; receiver.dropped(), 10);
    assert_eq!(rt; receiver.rest(), 0);
}

#[test]
fn two_frames_in_one_piece(rt: HostRuntime) {
    let mut receiver = Receiver::new(rt.alloc()).expect(&rt, "memory");
    let mut both = [0u8; 22];
    both[..11].copy_from_slice(&SIGN_ON);
    both[11..].copy_from_slice(&SIGN_ON);
    assert_eq!(rt; receiver.feed(&both), 11);
    assert_eq!(rt; receiver.feed(&both[11..]), 0);
    assert!(rt; hands_sign_on(&mut receiver, 0, 0));
    assert_eq!(rt; receiver.feed(&both[11..]), 11);
    assert!(rt; hands_sign_on(&mut receiver, 0, 0));
}

#[test]
fn size_above_the_limit_is_dropped(rt: HostRuntime) {
    let mut receiver = Receiver::new(rt.alloc()).expect(&rt, "memory");
    assert_eq!(rt; receiver.feed(&TOO_LARGE), 8);
    assert_eq!(rt; receiver.rest(), 0);
    assert_eq!(rt; receiver.feed(&SIGN_ON), 11);
    assert!(rt; hands_sign_on(&mut receiver, 0, 8));
}

#[test]
fn feed_considers_a_limited_number(rt: HostRuntime) {
    let mut receiver = Receiver::new(rt.alloc()).expect(&rt, "memory");
    let zeros = vec![in rt.alloc(); 0u8; 65_537].expect(&rt, "memory");
    assert_eq!(rt; receiver.feed(zeros.as_slice()), 65_536);
    assert_eq!(rt; receiver.dropped(), 65_536);
    assert_eq!(rt; receiver.feed(&[]), 0);
}

/// Feeds the bytes in pieces of that size, and counts the sign-on frames that are handed out.
fn sign_ons(receiver: &mut Receiver, bytes: &[u8], size: usize) -> u64
    requires { 0 < size }
{
    let mut handed = 0u64;
    for piece in bytes.chunks(size) {
        let mut rest = piece;
        for _ in piece {
            let taken = receiver.feed(rest);
            (_, rest) = rest.split_at(taken);
            handed = match receiver.next() {
                Some(frame) if frame.body.as_slice() == [0x01].as_slice() => handed.saturating_add(
                    1,
                ),
                Some(_) => handed,
                None => handed,
            };
        }
    }
    handed
}

#[test]
fn frames_in_small_pieces(rt: HostRuntime) {
    for size in [1, 2, 7] {
        let mut receiver = Receiver::new(rt.alloc()).expect(&rt, "memory");
        assert_eq!(rt; sign_ons(&mut receiver, &SIGN_ON, size), 1);
        assert_eq!(rt; sign_ons(&mut receiver, &DAMAGED, size), 1);
        assert_eq!(rt; receiver.dropped(), 10);
        assert_eq!(rt; sign_ons(&mut receiver, &TOO_LARGE, size), 0);
        assert_eq!(rt; receiver.dropped(), 18);
        assert_eq!(rt; sign_ons(&mut receiver, &SIGN_ON, size), 1);
        assert_eq!(rt; receiver.rest(), 0);
    }
}

#[test]
fn looks_at_a_frame_inside_a_damaged_one(rt: HostRuntime) {
    let mut receiver = Receiver::new(rt.alloc()).expect(&rt, "memory");
    let mut feeding = Looks::new();
    assert_eq!(rt; receiver.feed_counted(&DAMAGED, &mut feeding), 20);
    assert_eq!(rt; receiver.dropped(), 8);
    assert!(rt; feeding.count() <= 20 + 8 * 4116);
    let mut handing = Looks::new();
    assert!(rt; receiver.next_counted(&mut handing).is_some());
    assert_eq!(rt; receiver.dropped(), 9);
    assert!(rt; handing.count() <= 2 * 4116);
}

#[test]
fn a_frame_round_the_end_of_the_ring(rt: HostRuntime) {
    let mut body = ArrayVec::new();
    for place in 0..4106u16 {
        assert!(rt; body.try_push((place % 251) as u8).is_ok());
    }
    let mut bytes = ArrayVec::new();
    write_frame(&Frame { seq: 0x1234, body }, &mut bytes);
    let mut receiver = Receiver::new(rt.alloc()).expect(&rt, "memory");
    assert_eq!(rt; receiver.feed(&SIGN_ON), 11);
    assert!(rt; hands_sign_on(&mut receiver, 0, 0));
    assert_eq!(rt; receiver.feed(bytes.as_slice()), 4116);
    match receiver.next() {
        Some(frame) => {
            assert_eq!(rt; frame.seq, 0x1234);
            assert_eq!(rt; frame.body.as_slice(), &bytes.as_slice()[8..4114]);
        }
        None => assert!(rt; false, "none"),
    }
}

#[test]
fn many_headers_of_the_largest_size(rt: HostRuntime) {
    let mut line = [0u8; 4800];
    for place in 0..4800usize {
        line[place] = LARGEST[place % 8];
    }
    let mut receiver = Receiver::new(rt.alloc()).expect(&rt, "memory");
    let mut looks = Looks::new();
    assert_eq!(rt; receiver.feed_counted(&line, &mut looks), 4800);
    assert!(rt; looks.count() <= 11 * 4800);
    assert_eq!(rt; receiver.feed(&[0; 4200]), 4200);
    assert_eq!(rt; receiver.dropped(), 9000);
    assert_eq!(rt; receiver.rest(), 0);
    assert_eq!(rt; receiver.feed(&SIGN_ON), 11);
    assert!(rt; hands_sign_on(&mut receiver, 0, 9000));
}

#[test]
fn frames_behind_damaged_headers(rt: HostRuntime) {
    let mut receiver = Receiver::new(rt.alloc()).expect(&rt, "memory");
    assert_eq!(rt; receiver.feed(&LARGEST), 8);
    assert_eq!(rt; receiver.feed(&DAMAGED[..19]), 19);
    assert_eq!(rt; receiver.feed(&LARGEST), 8);
    assert_eq!(rt; receiver.feed(&SIGN_ON), 11);
    let taken = receiver.feed(&[0; 5000]);
    assert!(rt; taken < 5000);
    assert_eq!(rt; receiver.dropped(), 16);
    assert!(rt; hands_sign_on(&mut receiver, taken + 19, 16));
    assert_eq!(rt; receiver.feed(&[0; 5000]), 27);
    assert_eq!(rt; receiver.dropped(), 24);
    assert!(rt; hands_sign_on(&mut receiver, 0, taken as u64 + 51));
}

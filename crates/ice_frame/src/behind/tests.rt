use super::*;
use crate::check::crc;

#[test]
fn nine_digits_behind_others(rt: HostRuntime) {
    let all = b"damaged123456789";
    assert_eq!(rt; crc_behind(crc(&all[..7]), crc(all), 9), 0x6F91);
}

#[test]
fn every_place_in_many_bytes(rt: HostRuntime) {
    let mut all = [0u8; 200];
    for place in 0..200u8 {
        all[usize::from(place)] = place ^ 0x5A;
    }
    for place in 0..200u8 {
        let (front, bytes) = all.split_at(usize::from(place));
        assert_eq!(rt; crc_behind(crc(front), crc(&all), bytes.len()), crc(bytes));
    }
}

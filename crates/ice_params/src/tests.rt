//! The table of parameters: what is read at the start, what may be written, and what is refused.
use crate::{Params, Refusal};

const OKAY: Result<(), Refusal> = Ok(());

const NO_PARAMETER: Result<(), Refusal> = Err(Refusal::IllegalParameter);

const NO_VALUE: Result<(), Refusal> = Err(Refusal::IllegalValue);

/// Whether the parameter is read so while the target is stopped.
fn reads(params: &Params, id: u8, wanted: &[u8]) -> bool {
    match params.get(id, 0x00) {
        Ok(value) => value.bytes.as_slice() == wanted,
        Err(_) => false,
    }
}

/// Whether all parameters but one are read as at the start.
fn others_as_at_start(params: &Params, but: u8) -> bool {
    let rows: [(u8, &[u8]); 13] = [
        (0x01, &[0x01, 0x01]),
        (0x02, &[0x00, 0x06, 0x00, 0x06]),
        (0x03, &[0x01]),
        (0x05, &[0x04]),
        (0x06, &[0x88, 0x13]),
        (0x07, &[0x04]),
        (0x09, &[0x00]),
        (0x13, &[0x00]),
        (0x14, &[0x80, 0x00]),
        (0x15, &[0x04]),
        (0x1A, &[0x00]),
        (0x1B, &[0x00, 0x00, 0x00, 0x00]),
        (0x1C, &[0x00, 0x00, 0x00, 0x00]),
    ];
    for (id, wanted) in rows {
        if id != but && !reads(params, id, wanted) {
            return false;
        }
    }
    true
}

#[test]
fn reads_the_values_at_the_start(rt: HostRuntime) {
    assert!(rt; others_as_at_start(&Params::new(), 0x00));
}

#[test]
fn keeps_the_ends_of_each_range(rt: HostRuntime) {
    let rows: [(u8, &[u8]); 16] = [
        (0x03, &[0x01]),
        (0x05, &[0x01]),
        (0x05, &[0x08]),
        (0x07, &[0x00]),
        (0x07, &[0xFF]),
        (0x09, &[0x00]),
        (0x09, &[0x01]),
        (0x13, &[0x00]),
        (0x13, &[0x01]),
        (0x14, &[0x00, 0x00]),
        (0x14, &[0xFF, 0xFE]),
        (0x15, &[0x00]),
        (0x15, &[0xFF]),
        (0x1B, &[0x00, 0x00, 0x00, 0x00]),
        (0x1C, &[0x00, 0x00, 0x00, 0x00]),
        (0x1C, &[0xFF, 0xFE, 0xFD, 0xFC]),
    ];
    for (id, value) in rows {
        let mut params = Params::new();
        assert_eq!(rt; params.set(id, value), OKAY, "at {id}");
        assert!(rt; reads(&params, id, value), "at {id}");
        assert!(rt; others_as_at_start(&params, id), "at {id}");
    }
}

#[test]
fn refuses_values_past_the_ends(rt: HostRuntime) {
    let rows: [(u8, &[u8]); 10] = [
        (0x03, &[0x00]),
        (0x03, &[0x02]),
        (0x05, &[0x00]),
        (0x05, &[0x09]),
        (0x09, &[0x02]),
        (0x09, &[0xFF]),
        (0x13, &[0x02]),
        (0x13, &[0xFF]),
        (0x1B, &[0x01, 0x00, 0x00, 0x00]),
        (0x1B, &[0x00, 0x00, 0x00, 0x01]),
    ];
    for (id, value) in rows {
        let mut params = Params::new();
        assert_eq!(rt; params.set(id, value), NO_VALUE, "at {id}");
        assert!(rt; others_as_at_start(&params, 0x00), "at {id}");
    }
}

#[test]
fn refuses_wrong_sizes(rt: HostRuntime) {
    let rows: [(u8, usize); 9] = [
        (0x03, 1),
        (0x05, 1),
        (0x07, 1),
        (0x09, 1),
        (0x13, 1),
        (0x14, 2),
        (0x15, 1),
        (0x1B, 4),
        (0x1C, 4),
    ];
    let zeros = [0x00; 5];
    for (id, size) in rows {
        let mut params = Params::new();
        assert_eq!(rt; params.set(id, &[]), NO_VALUE, "at {id}");
        assert_eq!(rt; params.set(id, &zeros[..size - 1]), NO_VALUE, "at {id}");
        assert_eq!(rt; params.set(id, &zeros[..size + 1]), NO_VALUE, "at {id}");
        assert!(rt; others_as_at_start(&params, 0x00), "at {id}");
    }
}

#[test]
fn refuses_to_write_what_is_read_only(rt: HostRuntime) {
    let rows: [(u8, &[u8]); 6] = [
        (0x01, &[0x01, 0x01]),
        (0x01, &[]),
        (0x02, &[0x00, 0x06, 0x00, 0x06]),
        (0x06, &[0x88, 0x13]),
        (0x1A, &[0x00]),
        (0x1A, &[]),
    ];
    for (id, value) in rows {
        let mut params = Params::new();
        assert_eq!(rt; params.set(id, value), NO_PARAMETER, "at {id}");
        assert!(rt; others_as_at_start(&params, 0x00), "at {id}");
    }
}

#[test]
fn refuses_unknown_ids(rt: HostRuntime) {
    for id in [0x00, 0x04, 0x08, 0x0A, 0x12, 0x16, 0x19, 0x1D, 0xFF] {
        let mut params = Params::new();
        let refused = matches!(params.get(id, 0x00), Err(Refusal::IllegalParameter));
        assert!(rt; refused, "at {id}");
        assert_eq!(rt; params.set(id, &[0x00]), NO_PARAMETER, "at {id}");
        assert!(rt; others_as_at_start(&params, 0x00), "at {id}");
    }
}

#[test]
fn keeps_a_write_until_the_next(rt: HostRuntime) {
    let mut params = Params::new();
    assert_eq!(rt; params.set(0x05, &[0x08]), OKAY);
    assert!(rt; reads(&params, 0x05, &[0x08]));
    assert_eq!(rt; params.set(0x05, &[0x00]), NO_VALUE);
    assert_eq!(rt; params.set(0x1C, &[0x01, 0x02, 0x03, 0x04]), OKAY);
    assert!(rt; reads(&params, 0x05, &[0x08]));
    assert!(rt; reads(&params, 0x1C, &[0x01, 0x02, 0x03, 0x04]));
    assert_eq!(rt; params.set(0x05, &[0x01]), OKAY);
    assert!(rt; reads(&params, 0x05, &[0x01]));
}

#[test]
fn reads_the_state_of_the_target(rt: HostRuntime) {
    let params = Params::new();
    for state in [0x00, 0x01, 0x02] {
        match params.get(0x1A, state) {
            Ok(value) => assert_eq!(rt; value.bytes.as_slice(), [state].as_slice()),
            Err(refusal) => assert!(rt; false, "refused {refusal:?}"),
        }
    }
}

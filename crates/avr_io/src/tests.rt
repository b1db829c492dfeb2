//! Each call once, with the addresses and values of the datasheets' register summaries and interrupt vectors.
use super::*;
use part_spec::Part;
use std::alloc::Global;
use std::test::Fail;

const OCR0: u8 = 0x3C;

const TIMSK: u8 = 0x39;

const TIFR: u8 = 0x38;

const TCCR0: u8 = 0x33;

const TCNT0: u8 = 0x32;

const TCCR2: u8 = 0x25;

const TCNT2: u8 = 0x24;

const OCR2: u8 = 0x23;

const PORTB: u8 = 0x18;

const PINB: u8 = 0x16;

#[test]
fn a_store_to_a_port_is_an_output_write(rt: HostRuntime) -> Result<(), Fail> {
    let mut io = Io::new(rt.alloc())?;
    io.tick(5);
    io.store(PORTB, 0x5A);
    io.store(PINB, 0xFF);
    assert_eq!(rt; io.load(PINB), 0x5A);
    io.restart();
    assert_eq!(rt; io.load(PORTB), 0);
    assert_eq!(rt; io.cycles(), 5);
    assert_eq!(rt; io.writes(), 1);
    let write = OutWrite {
        cycle: 5,
        a: PORTB,
        byte: 0x5A,
    };
    assert_eq!(rt; io.last(0), Some(write));
    assert_eq!(rt; io.last(1), None);
    Ok(())
}

#[test]
fn the_ring_keeps_the_newest(rt: HostRuntime) -> Result<(), Fail> {
    let mut io = Io::new(rt.alloc())?;
    for _ in 0..4097u16 {
        io.store(PORTB, 1);
        io.tick(1);
    }
    assert_eq!(rt; io.writes(), 4097);
    assert_eq!(rt; io.last(0).map(|write| write.cycle), Some(4096));
    assert_eq!(rt; io.last(4095).map(|write| write.cycle), Some(1));
    assert_eq!(rt; io.last(4096), None);
    Ok(())
}

#[test]
fn timer_0_overflows_after_256_ticks(rt: HostRuntime) -> Result<(), Fail> {
    let mut io = Io::new(rt.alloc())?;
    io.store(TIMSK, 0x01);
    io.store(TCCR0, 0x01);
    io.store(OCR0, 0x80);
    io.tick(255);
    assert_eq!(rt; io.load(TCNT0), 255);
    assert_eq!(rt; io.pending(), None);
    io.tick(1);
    assert_eq!(rt; io.load(TCNT0), 0);
    assert_eq!(rt; io.load(TIFR), 0x03);
    assert_eq!(rt; io.pending(), Some(Vector::Ovf0));
    io.store(TIFR, 0x01);
    assert_eq!(rt; io.load(TIFR), 0x02);
    assert_eq!(rt; io.pending(), None);
    Ok(())
}

#[test]
fn cycles_taken_at_once_cross_an_overflow(rt: HostRuntime) -> Result<(), Fail> {
    let mut io = Io::new(rt.alloc())?;
    io.store(TCCR0, 0x01);
    io.store(OCR0, 0x80);
    io.store(TCNT0, 250);
    io.tick(5);
    assert_eq!(rt; (io.load(TCNT0), io.load(TIFR)), (255u8, 0x00u8));
    io.tick(5);
    assert_eq!(rt; (io.load(TCNT0), io.load(TIFR)), (4u8, 0x01u8));
    Ok(())
}

#[test]
fn cycles_taken_at_once_cross_a_compare_match(rt: HostRuntime) -> Result<(), Fail> {
    let mut io = Io::new(rt.alloc())?;
    io.store(TCCR0, 0x02);
    io.store(OCR0, 10);
    io.store(TCNT0, 8);
    io.tick(15);
    assert_eq!(rt; (io.load(TCNT0), io.load(TIFR)), (9u8, 0x00u8));
    io.tick(1);
    assert_eq!(rt; (io.load(TCNT0), io.load(TIFR)), (10u8, 0x02u8));
    io.tick(15);
    assert_eq!(rt; io.load(TCNT0), 11);
    Ok(())
}

#[test]
fn a_timer_that_clears_on_compare_starts_again(rt: HostRuntime) -> Result<(), Fail> {
    let mut io = Io::new(rt.alloc())?;
    io.store(TCCR2, 0x09);
    io.store(OCR2, 5);
    io.tick(4);
    assert_eq!(rt; (io.load(TCNT2), io.load(TIFR)), (4u8, 0x00u8));
    io.tick(4);
    assert_eq!(rt; (io.load(TCNT2), io.load(TIFR)), (2u8, 0x80u8));
    Ok(())
}

#[test]
fn a_store_to_tifr_clears_the_flags_of_its_ones(rt: HostRuntime) -> Result<(), Fail> {
    let mut io = Io::new(rt.alloc())?;
    io.store(TCCR0, 0x09);
    io.store(OCR0, 0x02);
    io.store(TCNT0, 0x00);
    io.tick(3);
    assert_eq!(rt; (io.load(TCNT0), io.load(TIFR)), (0x00u8, 0x02u8));
    io.store(TIFR, 0x02);
    assert_eq!(rt; io.load(TIFR), 0x00);
    Ok(())
}

#[test]
fn a_store_to_a_control_byte_keeps_what_was_counted(rt: HostRuntime) -> Result<(), Fail> {
    let mut io = Io::new(rt.alloc())?;
    io.store(TCCR0, 0x01);
    io.store(TCCR2, 0x02);
    io.tick(50);
    assert_eq!(rt; (io.load(TCNT0), io.load(TCNT2)), (50u8, 6u8));
    io.store(TCCR0, 0x02);
    io.tick(6);
    assert_eq!(rt;
        (io.load(TCNT0), io.load(TCNT2), io.cycles()),
        (51u8, 7u8, 56u64)
    );
    io.restart();
    io.tick(8);
    assert_eq!(rt;
        (io.load(TCNT0), io.load(TCNT2), io.cycles()),
        (0u8, 0u8, 64u64)
    );
    Ok(())
}

#[test]
fn of_two_pending_the_lower_address_goes_first(rt: HostRuntime) -> Result<(), Fail> {
    let mut io = Io::new(rt.alloc())?;
    io.store(TIMSK, 0x03);
    io.store(TCCR0, 0x01);
    io.store(TCNT0, 0xFF);
    io.tick(1);
    let mut taken = [None, None, None];
    for place in taken.iter_mut() {
        *place = take_pending(&mut io);
    }
    assert_eq!(rt; taken, [Some(0x12u16), Some(0x26), None]);
    Ok(())
}

/// Takes the interrupt that is pending, and tells where it enters.
fn take_pending(io: &mut Io) -> Option<u16> {
    let vector = io.pending()?;
    io.take(vector);
    Some(vector.address())
}

/// An I/O space of a part with all four interrupts pending: both timers have just overflown, and the count that they came to is
/// their compare byte.
fn with_all_pending(alloc: Global, part: Part) -> Result<Io, Fail> {
    let mut io = Io::of(alloc, part)?;
    io.store(TIMSK, 0xC3);
    io.store(TCCR0, 0x01);
    io.store(TCCR2, 0x01);
    io.store(TCNT0, 0xFF);
    io.store(TCNT2, 0xFF);
    io.tick(1);
    Ok(io)
}

/// Takes the interrupt that is pending, and tells where it enters on a part.
fn take_pending_of(part: Part, io: &mut Io) -> Option<u16> {
    let vector = io.pending()?;
    io.take(vector);
    Some(vector.address_for(part))
}

#[test]
fn of_four_pending_the_lowest_address_of_the_part_goes_first(rt: HostRuntime) -> Result<(), Fail> {
    let orders = [
        (Part::M16, [0x06u16, 0x08, 0x12, 0x26]),
        (Part::M32, [0x08, 0x0A, 0x14, 0x16]),
    ];
    for (part, order) in orders {
        let mut io = with_all_pending(rt.alloc(), part)?;
        for address in order {
            assert_eq!(rt; take_pending_of(part, &mut io), Some(address));
        }
        assert_eq!(rt; io.pending(), None);
    }
    Ok(())
}

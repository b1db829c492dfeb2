//! The I/O addresses that have a meaning of their own (ATmega16 datasheet, "Register Summary").
ghost use Rattle.std.specs.Prelude.{◌≡◌};
ghost use Rattle.avr_io.specs.TimerOf.{is_timer};
ghost use Rattle.avr_io.specs.Pending.{is_watched};
ghost use Rattle.avr_spec.specs.IoSpace.{is_pin, is_port, is_direction, is_output, is_read_only};

pub(crate) const OCR0: u8 = 0x3C;

pub(crate) const TIMSK: u8 = 0x39;

pub(crate) const TIFR: u8 = 0x38;

pub(crate) const TCCR0: u8 = 0x33;

pub(crate) const TCNT0: u8 = 0x32;

pub(crate) const TCCR2: u8 = 0x25;

pub(crate) const TCNT2: u8 = 0x24;

pub(crate) const OCR2: u8 = 0x23;

pub(crate) const EECR: u8 = 0x1C;

pub(crate) const UDR: u8 = 0x0C;

pub(crate) const UCSRA: u8 = 0x0B;

const PORTA: u8 = 0x1B;

const DDRA: u8 = 0x1A;

const PINA: u8 = 0x19;

const PORTB: u8 = 0x18;

const DDRB: u8 = 0x17;

const PINB: u8 = 0x16;

const PORTC: u8 = 0x15;

const DDRC: u8 = 0x14;

const PINC: u8 = 0x13;

const PORTD: u8 = 0x12;

const DDRD: u8 = 0x11;

const PIND: u8 = 0x10;

/// Whether this is a PINx. DDRx and PORTx stand one and two addresses above it.
pub(crate) fn is_pin(a: u8) -> bool
    ensures { result ≡ is_pin a }
{
    a == PINA || a == PINB || a == PINC || a == PIND
}

/// Whether this is a PORTx.
fn is_port(a: u8) -> bool
    ensures { result ≡ is_port a }
{
    a == PORTA || a == PORTB || a == PORTC || a == PORTD
}

/// Whether this is a DDRx.
fn is_direction(a: u8) -> bool
    ensures { result ≡ is_direction a }
{
    a == DDRA || a == DDRB || a == DDRC || a == DDRD
}

/// Whether a store here is an output write.
pub(crate) fn is_output(a: u8) -> bool
    ensures { result ≡ is_output a }
{
    is_port(a) || is_direction(a) || a == UDR
}

/// Whether a store here does nothing.
pub(crate) fn is_read_only(a: u8) -> bool
    ensures { result ≡ is_read_only a }
{
    is_pin(a) || a == UCSRA || a == EECR
}

/// Whether a store here may change when an interrupt is pending.
pub(crate) fn is_watched(a: u8) -> bool
    ensures { result ≡ is_watched a }
{
    is_timer(a) || a == TIFR || a == TIMSK
}

/// Whether a register of a timer stands here.
fn is_timer(a: u8) -> bool
    ensures { result ≡ is_timer a }
{
    a == TCCR0 || a == TCNT0 || a == OCR0 || a == TCCR2 || a == TCNT2 || a == OCR2
}

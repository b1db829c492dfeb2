//! One call over all pairs of bytes, again and again.

ghost use Rattle.std.specs.Prelude.{◌≡◌};

// The checksum is FNV-1a over words of 24 bits: the value, then the status byte.
const FNV_START: u32 = 0x811C_9DC5;

const FNV_PRIME: u32 = 0x0100_0193;

/// The checksum so far, and the status byte that the next call takes.
#[derive(Clone, Copy)]
struct Sweep {
    sum: u32,
    sreg: u8,
}

/// The checksum of `call` over all pairs of bytes, `rounds` times; each call takes the status byte that the last one gave.
#[inline]
pub fn swept<F: Fn(u8, u8, u8) -> (u16, u8)>(rounds: u32, call: F) -> u32
    requires { F.IsAlwaysCallable call }
{
    let mut sweep = Sweep {
        sum: FNV_START,
        sreg: 0,
    };
    for _ in 0..rounds {
        sweep = over_pairs(sweep, &call);
    }
    sweep.sum
}

#[inline]
fn over_pairs<F: Fn(u8, u8, u8) -> (u16, u8)>(start: Sweep, call: &F) -> Sweep
    requires { F.IsAlwaysCallable call.now }
{
    let mut sweep = start;
    for pair in 0..0x1_0000u32 {
        let (value, sreg) = call((pair / 256) as u8, (pair % 256) as u8, sweep.sreg);
        let mixed = sweep.sum ^ (value as u32 * 256 + sreg as u32);
        sweep = Sweep {
            sum: mixed.wrapping_mul(FNV_PRIME),
            sreg,
        };
    }
    sweep
}

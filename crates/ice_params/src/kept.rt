//! Writes to one value.
ghost use Rattle.std.specs.Prelude.{◌≡◌, [], ◌∷◌};
ghost use Rattle.line_spec.specs.Parameters.{any_value, numbers};
ghost use Rattle.ice_params.specs.Keeping.{Keeps};

use line_spec::Refusal;

/// Keeps the value if it has as many bytes.
pub(crate) fn keep<const N: usize>(kept: &mut [u8; N], value: &[u8]) -> Result<(), Refusal>
    ensures { Keeps any_value kept.old value.now result kept.new }
{
    let Ok(bytes) = <[u8; N]>::try_from(value) else {
        return Err(Refusal::IllegalValue);
    };
    *kept = bytes;
    Ok(())
}

/// Keeps the value if it is one byte, from `least` to `most`.
pub(crate) fn keep_within(kept: &mut u8, value: &[u8], least: u8, most: u8) -> Result<(), Refusal>
    ensures { Keeps (numbers least most) (kept.old ∷ []) value.now result (kept.new ∷ []) }
{
    match value {
        [byte] if least <= *byte && *byte <= most => {
            *kept = *byte;
            Ok(())
        }
        _ => Err(Refusal::IllegalValue),
    }
}

/// Takes the value if it is four zeros, the only value of its parameter.
pub(crate) fn keep_zeros(value: &[u8]) -> Result<(), Refusal>
    ensures { Keeps (numbers 0 0) (0 ∷ 0 ∷ 0 ∷ 0 ∷ []) value.now result (0 ∷ 0 ∷ 0 ∷ 0 ∷ []) }
{
    match value {
        [0x00, 0x00, 0x00, 0x00] => Ok(()),
        _ => Err(Refusal::IllegalValue),
    }
}

//! Images worked by hand.
mod firmware;
mod refused;
mod texts;

use crate::{ImageError, read_image, read_image_for};
use firmware::{FIRMWARE, FIRMWARE_TEXT};
use part_spec::Part;
use refused::REFUSED;
use std::alloc::Global;
use std::test::Fail;
use texts::TEXTS;

/// Whether the words of an image are these, and FFFF behind them up to the end of the part's flash.
fn gives(alloc: Global, part: Part, name: &str, image: &[u8], wanted: &[u16]) -> bool {
    let Ok(words) = read_image_for(alloc, part, name, image) else {
        return false;
    };
    for (place, word) in words.as_slice().iter().enumerate() {
        if *word != wanted.get(place).copied().unwrap_or(0xFFFF) {
            return false;
        }
    }
    words.len() == usize::from(part.words())
}

/// How an image is refused, if it is.
fn refusal(alloc: Global, part: Part, name: &str, image: &[u8]) -> Option<ImageError> {
    read_image_for(alloc, part, name, image).err()
}

#[test]
fn reads_texts(rt: HostRuntime) {
    for (text, wanted) in TEXTS {
        assert!(rt;
            gives(rt.alloc(), Part::M16, "p.hex", text, wanted),
            "at {text:?}"
        );
        assert!(rt;
            gives(rt.alloc(), Part::M32, "p.hex", text, wanted),
            "at {text:?}"
        );
    }
}

#[test]
fn refuses_the_first_wrong_line(rt: HostRuntime) {
    for (text, wanted) in REFUSED {
        assert_eq!(rt;
            refusal(rt.alloc(), Part::M16, "p.hex", text),
            Some(wanted),
            "at {text:?}"
        );
        assert_eq!(rt;
            refusal(rt.alloc(), Part::M32, "p.hex", text),
            Some(wanted),
            "at {text:?}"
        );
    }
}

#[test]
fn reads_up_to_the_end_of_the_flash(rt: HostRuntime) -> Result<(), Fail> {
    let alloc = rt.alloc();
    let behind_m16 = b":0140000001BE\n:00000001FF\n";
    let behind_m32 = b":01800000017E\n:00000001FF\n";
    assert_eq!(rt;
        refusal(alloc, Part::M16, "p.hex", behind_m16),
        Some(ImageError::TooLarge)
    );
    assert_eq!(rt;
        refusal(alloc, Part::M32, "p.hex", behind_m32),
        Some(ImageError::TooLarge)
    );
    let mut wanted = vec![in alloc; 0xFFFF; 8192]?;
    wanted.push(0xFF01)?;
    assert!(rt; gives(alloc, Part::M32, "p.hex", behind_m16, wanted.as_slice()));
    let last = b":013FFF0001C0\n:00000001FF\n";
    wanted.clear();
    wanted.resize(8191, 0xFFFF)?;
    wanted.push(0x01FF)?;
    assert!(rt; gives(alloc, Part::M16, "p.hex", last, wanted.as_slice()));
    let over_both = b":013FFF0001C0\n:023FFF000102BD\n";
    assert_eq!(rt;
        refusal(alloc, Part::M16, "p.hex", over_both),
        Some(ImageError::Overlap(16_383))
    );
    Ok(())
}

#[test]
fn reads_raw_images(rt: HostRuntime) -> Result<(), Fail> {
    let alloc = rt.alloc();
    assert!(rt; gives(alloc, Part::M16, "p.bin", &[], &[]));
    assert!(rt;
        gives(
            alloc,
            Part::M16,
            "hex",
            &[0x01, 0xE0, 0x07, 0xBB],
            &[0xE001, 0xBB07]
        )
    );
    assert_eq!(rt;
        refusal(alloc, Part::M16, "p.HEX", b":00000001FF"),
        Some(ImageError::Odd)
    );
    assert_eq!(rt;
        refusal(alloc, Part::M16, "p.hex.bin", &[1, 2, 3]),
        Some(ImageError::Odd)
    );
    let mut image = vec![in alloc; 0xFF; 16_384]?;
    assert!(rt; gives(alloc, Part::M16, "p.bin", image.as_slice(), &[]));
    image.push(0xFF)?;
    assert_eq!(rt;
        refusal(alloc, Part::M16, "p.bin", image.as_slice()),
        Some(ImageError::TooLarge)
    );
    assert_eq!(rt;
        refusal(alloc, Part::M32, "p.bin", image.as_slice()),
        Some(ImageError::Odd)
    );
    image.push(0xFF)?;
    assert_eq!(rt;
        refusal(alloc, Part::M16, "p.bin", image.as_slice()),
        Some(ImageError::TooLarge)
    );
    assert!(rt; gives(alloc, Part::M32, "p.bin", image.as_slice(), &[]));
    image.resize(32_770, 0xFF)?;
    assert_eq!(rt;
        refusal(alloc, Part::M32, "p.bin", image.as_slice()),
        Some(ImageError::TooLarge)
    );
    Ok(())
}

#[test]
fn limits_the_content(rt: HostRuntime) -> Result<(), Fail> {
    let alloc = rt.alloc();
    let mut text = vec![in alloc; b'\n'; 1_048_576]?;
    assert_eq!(rt;
        refusal(alloc, Part::M16, "p.hex", text.as_slice()),
        Some(ImageError::BadRecord(1_048_577))
    );
    text.push(b'\n')?;
    assert_eq!(rt;
        refusal(alloc, Part::M16, "p.hex", text.as_slice()),
        Some(ImageError::TooLarge)
    );
    Ok(())
}

#[test]
fn reads_a_firmware_as_its_raw_twin(rt: HostRuntime) -> Result<(), Fail> {
    let text = read_image(rt.alloc(), "blink.hex", FIRMWARE_TEXT);
    let raw = read_image(rt.alloc(), "blink.bin", &FIRMWARE);
    match (text, raw) {
        (Ok(text), Ok(raw)) => {
            assert_eq!(rt; text.as_slice(), raw.as_slice());
            assert_eq!(rt; text.get(67), Some(&0xCFFF));
        }
        _ => assert!(rt; false, "refused"),
    }
    Ok(())
}

//! Lines of a host that means no good, or whose wire is bad.
use super::call::{READS, Wanted, assert_came, replay};
use super::held::{LIT, OPENED};
use super::lines::{assert_answered, light_case};
use super::talk::{BREAK_AT_2, GO, OKAY, SIGN_OFF, put_frame};
use ice_top::Status;
use std::test::Fail;

#[test]
fn beginnings_of_frames_alone_are_dropped(rt: HostRuntime) -> Result<(), Fail> {
    // Five of them have a size that is too large, so each is dropped but the last four, which are held up to the end.
    assert_answered(
        &rt,
        rt.alloc(),
        &[0x1B; 4116],
        &[],
        "cycles 0 steps 0 writes 0 dropped 4116\n",
    )?;
    Ok(())
}

/// How many bytes the first frame of the line has, and where its size begins.
const FIRST_FRAME: usize = 18;

const SIZE: usize = 3;

#[test]
fn any_byte_of_a_breakpoint_may_be_damaged(rt: HostRuntime) -> Result<(), Fail> {
    let alloc = rt.alloc();
    let mut whole = Vec::new(alloc);
    put_frame(&mut whole, 0, BREAK_AT_2)?;
    put_frame(&mut whole, 1, GO)?;
    put_frame(&mut whole, 2, SIGN_OFF)?;
    // The frame is dropped, so that the run meets no breakpoint: 3 steps of 1 cycle and 97 of 2.
    let mut unset = Vec::new(alloc);
    put_frame(&mut unset, 1, OKAY)?;
    put_frame(&mut unset, 2, OKAY)?;
    for place in 0..FIRST_FRAME {
        let mut line = whole.clone()?;
        if place < line.len() {
            line[place] = 0xFF;
        }
        // A size of 255 has all else of the line as the front of a body.
        let (sent, notes) = if place == SIZE {
            ([].as_slice(), "cycles 0 steps 0 writes 0 dropped 40\n")
        } else {
            (
                unset.as_slice(),
                "cycles 197 steps 100 writes 2 dropped 18\n",
            )
        };
        let wanted = Wanted {
            status: Status::Okay,
            sent,
            notes,
            journal: OPENED,
            left: LIT,
        };
        for most in READS {
            let outcome = replay(alloc, &light_case(line.as_slice(), most))?;
            let label = format!(in alloc; "byte {place}, by {most}")?;
            assert_came(&rt, alloc, &outcome, &wanted, label.as_str())?;
        }
    }
    Ok(())
}

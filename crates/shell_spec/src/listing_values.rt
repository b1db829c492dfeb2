//! Listings worked by hand, as laws: each function is empty, and its contract says what the definitions compute.
ghost use Rattle.std.specs.Prelude.{◌≡◌, [], ◌∷◌, ◌++◌, codes};
ghost use Rattle.line_spec.specs.Cut.{whole, junk};
ghost use Rattle.shell_spec.specs.Listing.{IsListing, listing};

/// A frame inside a damaged one is listed, and what stands before it and behind it is junk.
pub fn listing_of_a_damaged_frame()
    ensures { IsListing (0x1B ∷ 0x05 ∷ 0x00 ∷ 0x0B ∷ 0x00 ∷ 0x00 ∷ 0x00 ∷ 0x0E ∷ 0x1B ∷ 0x00 ∷ 0x00 ∷ 0x01 ∷ 0x00 ∷ 0x00 ∷ 0x00 ∷ 0x0E ∷
        0x01 ∷ 0xF3 ∷ 0x97 ∷ 0x00 ∷ 0x00 ∷ [])
        (codes "junk 8" ++ 10 ∷ codes "frame 0000 01" ++ 10 ∷ codes "junk 2" ++ 10 ∷ []) }
{}

/// The beginning of a frame at the end of the bytes is the rest.
pub fn listing_of_a_rest()
    ensures { IsListing (0x1B ∷ 0x00 ∷ 0x00 ∷ 0x01 ∷ 0x00 ∷ 0x00 ∷ 0x00 ∷ 0x0E ∷ 0x01 ∷ 0xF3 ∷ [])
        (codes "rest 10" ++ 10 ∷ []) }
{}

/// Frames that follow one another, with any number, and of which one has an empty body; and nothing at all.
pub fn listings_of_frames()
    ensures frames { listing (whole (record { number = 0xffff; body = 0xe0 ∷ 0x0f ∷ [] }) ∷ whole (record { number = 0x1a; body = [] }) ∷
        junk 0x1b ∷ []) (0x1b ∷ []) ≡ codes "frame ffff e00f" ++ 10 ∷ codes "frame 001a -" ++ 10 ∷ codes "junk 1" ++ 10 ∷
        codes "rest 1" ++ 10 ∷ [] }
    ensures nothing { listing [] [] ≡ [] }
{}

//! Texts that are refused on both parts, and why.
use crate::ImageError;

/// Each text with its refusal.
pub(super) const REFUSED: [(&[u8], ImageError); 36] = [
    // no record that ends the image
    (b"", ImageError::BadRecord(1)),
    (b"\n", ImageError::BadRecord(2)),
    (b":0100000001FE", ImageError::BadRecord(2)),
    (b":0100000001FE\n", ImageError::BadRecord(2)),
    (b"\n\r\n:0100000001FE\n", ImageError::BadRecord(4)),
    // no colon first, or what is no digit
    (b"00000001FF\n", ImageError::BadRecord(1)),
    (b" :00000001FF\n", ImageError::BadRecord(1)),
    (b":0000000 1FF\n", ImageError::BadRecord(1)),
    (b":00000001FG\n", ImageError::BadRecord(1)),
    (b"::00000001FF\n", ImageError::BadRecord(1)),
    // a carriage return that no line feed follows
    (b"\r", ImageError::BadRecord(1)),
    (b":00000001FF\r", ImageError::BadRecord(1)),
    (b":00000001FF\r\r\n", ImageError::BadRecord(1)),
    (b":0100000001FE\r:00000001FF\n", ImageError::BadRecord(1)),
    // digits that do not fit the count
    (b":", ImageError::BadRecord(1)),
    (b":00000001", ImageError::BadRecord(1)),
    (b":00000001F", ImageError::BadRecord(1)),
    (b":00000001FF0", ImageError::BadRecord(1)),
    (b":00000001FF00", ImageError::BadRecord(1)),
    (b":0200000001FD\n", ImageError::BadRecord(1)),
    // no type, or a count that is not the type's
    (b":00000006FA\n", ImageError::BadRecord(1)),
    (b":0100000101FD\n", ImageError::BadRecord(1)),
    (b":0100000201FC\n", ImageError::BadRecord(1)),
    (b":020000030102F8\n", ImageError::BadRecord(1)),
    (b":03000004010203F3\n", ImageError::BadRecord(1)),
    (b":020000050102F6\n", ImageError::BadRecord(1)),
    // a wrong sum: after what makes no record of a line, before its addresses; the last record is summed too
    (
        b":0800000001E007BB08BBFFCFC5\n:00000001FF\n",
        ImageError::BadSum(1),
    ),
    (b":00000006FB\n", ImageError::BadRecord(1)),
    (b":01C000000140\n:00000001FF\n", ImageError::BadSum(1)),
    (b"\n:00000001FE\n", ImageError::BadSum(2)),
    // a byte behind the end: addresses do not wrap
    (b":020000040001F9\n:0100000001FE\n", ImageError::TooLarge),
    (b":020000020001FB\n:01FFF000010F\n", ImageError::TooLarge),
    // a byte that is given twice, told by its address; the first wrong line decides
    (b":0100000001FE\n:0100000002FD\n", ImageError::Overlap(0)),
    (
        b":020004000102F7\n:020003000405F2\n",
        ImageError::Overlap(4),
    ),
    (
        b":0100000001FE\nx\n:0100000001FE\n",
        ImageError::BadRecord(2),
    ),
    (b":0100000001FE\n:0100000001FE\nx\n", ImageError::Overlap(0)),
];

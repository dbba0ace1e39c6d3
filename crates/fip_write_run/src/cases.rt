// The cases, on both sides of each rule. There are 65536 image bytes.
use crate::plans::{many, three, with, write};
use std::io;

pub(crate) fn numbers(rt: &impl Print) -> io::Result<()> {
    let d = three();
    write(rt, "three images", 1, d, 3, 200)?;
    write(rt, "no images", 1, d, 0, 56)?;
    write(rt, "serial number 0", 0, d, 3, 200)?;
    write(rt, "serial number 0, and no room", 0, d, 3, 0)?;
    write(rt, "the greatest serial number", 0xffffffff, d, 3, 200)
}

pub(crate) fn tables(rt: &impl Print) -> io::Result<()> {
    let d = many();
    write(rt, "64 images", 1, d, 64, 65537)?;
    write(rt, "65 images", 1, d, 65, 65537)?;
    let twin = with(d, 63, 1, 0, 1);
    write(
        rt,
        "the last of 64 identifiers as the first",
        1,
        twin,
        64,
        65537,
    )?;
    let outside = with(twin, 0, 1, 65536, 1);
    write(rt, "the same, and an image outside", 1, outside, 64, 65537)?;
    write(rt, "without it an image outside", 1, outside, 63, 65537)?;
    let blank = with(with(d, 61, 1, 0, 1), 62, 0, 0, 1);
    write(
        rt,
        "an identifier of zeros, behind twins",
        1,
        blank,
        63,
        65537,
    )
}

pub(crate) fn places(rt: &impl Print) -> io::Result<()> {
    let d = with(three(), 2, 3, 4, 4);
    write(rt, "images that share bytes", 1, d, 3, 200)?;
    write(
        rt,
        "an image one byte past the image bytes",
        1,
        with(d, 2, 3, 65533, 4),
        3,
        200,
    )?;
    write(
        rt,
        "no bytes at the end of the image bytes",
        1,
        with(d, 1, 2, 65536, 0),
        3,
        200,
    )?;
    write(rt, "no bytes past it", 1, with(d, 1, 2, 65537, 0), 3, 200)?;
    let wrapped = with(d, 1, 2, 8, u64::MAX - 6);
    write(
        rt,
        "an image whose end is past 2 to the 64th",
        1,
        wrapped,
        3,
        200,
    )?;
    write(rt, "an image outside, and no room", 1, wrapped, 3, 0)
}

pub(crate) fn rooms(rt: &impl Print) -> io::Result<()> {
    let d = with(three(), 1, 2, 5, 3);
    write(rt, "just enough room", 1, d, 2, 144)?;
    write(rt, "one byte too little room", 1, d, 2, 143)?;
    write(rt, "no room for the header", 1, d, 2, 15)?;
    write(rt, "65536 bytes", 1, with(d, 1, 2, 0, 65395), 2, 65537)?;
    write(rt, "65537 bytes", 1, with(d, 1, 2, 0, 65396), 2, 65537)?;
    let twice = with(with(d, 0, 1, 0, 65536), 1, 2, 0, 65536);
    write(rt, "two images of 65536 bytes", 1, twice, 2, 65537)
}

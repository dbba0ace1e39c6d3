// The two spaces of a line: read, lent to the conversion, and written out again.
use std::io;

// Room for a page more than there may be, and for some places behind it.
pub(crate) const ROOM: usize = 4352;

// Values one behind the other, and how many they are: both spaces are there once, and lent for each line.
#[derive(Drop)]
pub(crate) struct Space {
    places: [u64; ROOM],
    count: usize,
}

impl Space {
    // A space without values.
    pub(crate) fn new() -> Space {
        Space {
            places: [0; ROOM],
            count: 0,
        }
    }

    // Takes all values away.
    pub(crate) fn clear(&mut self) {
        self.count = 0;
    }

    // Puts a value so many times behind the others. It answers whether there was room.
    pub(crate) fn put(&mut self, times: u64, value: u64) -> bool {
        for _ in 0..times {
            if ROOM <= self.count {
                return false;
            }
            self.places[self.count] = value;
            self.count += 1;
        }
        true
    }

    pub(crate) fn values(&self) -> &[u64] {
        &self.places[..self.count.min(ROOM)]
    }

    pub(crate) fn values_mut(&mut self) -> &mut [u64] {
        &mut self.places[..self.count.min(ROOM)]
    }
}

// The bytes that were read as numbers, in the first places of their own space.
pub(crate) fn narrow<'a>(read: &[u64], places: &'a mut [u8; ROOM]) -> &'a mut [u8] {
    for (byte, value) in places.iter_mut().zip(read) {
        *byte = (*value % 256) as u8;
    }
    &mut places[..read.len().min(ROOM)]
}

// Writes the values, a row of equal ones at once.
pub(crate) fn say<T: Copy + Into<u64> + PartialEq>(rt: &impl Print, space: &[T]) -> io::Result<()> {
    if space.is_empty() {
        rt.write_all(b"0*0")?;
    }
    for (i, row) in space.chunk_by(|a, b| a == b).enumerate() {
        if let [first, ..] = row {
            if 0 < i {
                rt.write_all(b",")?;
            }
            if 1 < row.len() {
                print!(rt; "{:x}*", row.len())?;
            }
            let value: u64 = (*first).into();
            print!(rt; "{value:x}")?;
        }
    }
    Ok(())
}

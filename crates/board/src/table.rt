// Tables of up to sixteen entries.
ghost use Rattle.std.specs.Prelude.{◌≡◌, ◌≤◌, length, take};
ghost use Rattle.board.specs.Plans.{padded};

// The entries first, and zeros after them: memory is fixed, and a plan is `Copy`, as no vector is. What
// holds of a plan's tables stands in `Plan`, since of the wake sets it is said of their bits.
#[derive(Clone, Copy)]
pub(crate) struct Table<T> {
    pub(crate) count: u8,
    pub(crate) places: [T; 16],
}

impl<T: Copy> Table<T> {
    pub(crate) fn new(entries: &[T], zero: T) -> Table<T>
        requires { length entries.now ≤ 16 }
        ensures count { result.count ≡ length entries.now }
        ensures places { result.places ≡ padded zero entries.now }
    {
        let mut places = [zero; 16];
        places[..entries.len()].copy_from_slice(entries);
        Table {
            count: entries.len() as u8,
            places,
        }
    }

    pub(crate) fn entries(&self) -> &[T]
        requires { self.now.count ≤ 16 }
        ensures { result.now ≡ take self.now.count self.now.places }
    {
        &self.places[..self.count as usize]
    }
}

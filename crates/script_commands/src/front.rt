// What is lent of a slice: its first bytes.
ghost use Rattle.script_commands.specs.Room.{Front};

// So many of the bytes of a slice, or as many as there are.
pub fn front(n: usize, s: &[u8]) -> usize
    ensures { Front n result s.now }
{
    n.min(s.len())
}

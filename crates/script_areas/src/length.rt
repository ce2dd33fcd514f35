// The lengths that are lent of the areas.
ghost use Rattle.std.specs.Prelude.{◌≤◌, IfSome};
ghost use Rattle.volume_tree.specs.Stored.{volume_bytes};
ghost use Rattle.log_rules.specs.Stored.{log_bytes};
ghost use Rattle.script_areas.specs.Length.{Reckoned, Within};

// The bytes of an area.
const AREA: u64 = 32768;

// The bytes of an entry's head, of a block, of a log's head and of a slot.
const ENTRY_HEAD: u64 = 68;

const BLOCK: u64 = 1024;

const LOG_HEAD: u64 = 8;

const SLOT: u64 = 1048;

// The lengths lent of the areas.
#[derive(Clone, Copy, Default)]
pub struct Lengths {
    pub server: usize,
    pub view: usize,
    pub log: usize,
}

// A length, unless it exceeds an area.
fn lent(n: u64) -> Option<usize>
    ensures { IfSome result (λ l. l ≤ 32768) }
{
    if n <= AREA { Some(n as usize) } else { None }
}

// The lengths as they are given, unless one exceeds an area.
pub fn lent_lengths(server: u64, view: u64, log: u64) -> Option<Lengths>
    ensures { IfSome result Within }
{
    Some(Lengths {
        server: lent(server)?,
        view: lent(view)?,
        log: lent(log)?,
    })
}

// The bytes of a volume, n × (68 + 1,024 × b); none where a number of 64 bits does not hold them.
pub fn volume_bytes(n: u64, b: u64) -> Option<u64>
    ensures { Reckoned (volume_bytes n b) result }
{
    if n == 0 {
        return Some(0);
    }
    let entry = b.checked_mul(BLOCK)?.checked_add(ENTRY_HEAD)?;
    n.checked_mul(entry)
}

// The bytes of a log, 8 + m × 1,048; none where a number of 64 bits does not hold them.
pub fn log_bytes(m: u64) -> Option<u64>
    ensures { Reckoned (log_bytes m) result }
{
    m.checked_mul(SLOT)?.checked_add(LOG_HEAD)
}

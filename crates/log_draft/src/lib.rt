// Issuing an operation whose record stands in the first free slot of the log: "Each accepted change, and forder, alters the view,
// takes one sequence number and waits". It is applied to the view from there.
#![tactic(auto)]

ghost use Rattle.std.specs.Prelude.{◌≡◌, ℕ, ◌+◌, ◌≤◌, ◌<◌, ◌++◌, length};
ghost use Rattle.buffer.specs.Numeral.{bytes};
ghost use Rattle.buffer.specs.Patch.{patch};
ghost use Rattle.record.specs.Operation.{Record};
ghost use Rattle.volume_tree.specs.Stored.{encode_volume, read_volume};
ghost use Rattle.volume_tree.specs.Code.Lent.{Formed};
ghost use Rattle.volume_apply.specs.Apply.{apply};
ghost use Rattle.log_rules.specs.Programs.{with};
ghost use Rattle.log_rules.specs.Slot.{Log};
ghost use Rattle.log_rules.specs.Stored.{record_start, read_log};
ghost use Rattle.log_rules.specs.Code.Slots.{Logged};
ghost use Rattle.log_draft.specs.Code.Draft.{draft_of, Placed};
ghost use Rattle.log_draft.specs.Code.Issued.{Issuable, Begins, Ready, Waits, Issued};

use buffer::put::put_four;
use log_dependence::note_slots;
use log_operands::order_of;
use log_slots::head::{next_number, used};
use log_slots::programs::with_program;
use log_slots::{HEAD, NEXT_AT, RECORD_END, RECORD_START, SLOT, WAITING};
use log_touch::set::{add, none};
use record_reader::read_record;
use volume::apply::apply;

// Who issues an operation.
#[derive(Clone, Copy)]
pub struct Issuer {
    pub program: usize,
}

// The next operation of a log before it is issued: its sequence number, where its slot begins, where its record's part of the slot
// begins and ends, and who issues it.
#[derive(Drop)]
pub struct Draft {
    pub next: usize,
    pub at: usize,
    pub start: usize,
    pub end: usize,
    pub by: Issuer,
}

// The draft in the first free slot of a log.
pub fn draft_of(log: &[u8], m: usize, by: Issuer) -> Draft
    requires { (n b : ℕ) × Logged n b m log.now }
    ensures { result ≡ draft_of (read_log m log.now) by }
{
    let used = used(log, m);
    let next = next_number(log, m);
    let at = HEAD + used * SLOT;
    let start = at + RECORD_START;
    let end = at + RECORD_END;
    Draft {
        next,
        at,
        start,
        end,
        by,
    }
}

// The view with the operation of a record applied.
fn apply_record(view: &mut [u8], n: usize, b: usize, rec: &[u8])
    requires formed { Formed n b view.old }
    requires begins { (r : Record) × Begins rec.now r × Issuable n b (read_volume n b view.old) r }
    ensures { (r : Record) → Begins rec.now r → Issuable n b (read_volume n b view.old) r
        → view.new ≡ encode_volume b (apply (read_volume n b view.old) r.operation) }
{
    let Some(w) = read_record(rec, 0) else {
        return;
    };
    apply(view, n, b, rec, w);
}

// The slot's state and dependents: its operation waits, and its issuer depends on it.
fn set_waiting(log: &mut [u8], at: usize, by: Issuer)
    requires { (at + record_start ≤ length log.old) × (by.program < 32) }
    ensures { log.new ≡ patch log.old at (bytes 4 1 ++ bytes 4 (with 0 by.program)) }
{
    let next = put_four(log, at, WAITING);
    put_four(log, next, with_program(0, by.program));
}

// The log's part of issuing the operation whose record stands in the first free slot; its sequence number.
pub fn issue_log(log: &mut [u8], n: usize, b: usize, m: usize, d: Draft) -> usize
    requires { (l : Log) × (r : Record) × Placed n b m d log.old l r }
    ensures { (l : Log) (r : Record) → Placed n b m d log.old l r → Waits m result log.new l r }
{
    let next = d.next;
    let at = d.at;
    let start = d.start;
    let end = d.end;
    let mut reached = none();
    let rec = &log[start..end];
    add(&mut reached, rec, order_of(rec));
    note_slots(&mut log[HEAD..at], d.by.program, &mut reached);
    set_waiting(log, at, d.by);
    put_four(log, NEXT_AT, next + 1);
    next
}

// Issues the operation whose record stands in the first free slot; its sequence number.
pub fn issue(log: &mut [u8], view: &mut [u8], n: usize, b: usize, m: usize, d: Draft) -> usize
    requires formed { Formed n b view.old }
    requires ready { (l : Log) × (r : Record) × Ready n b m d log.old (read_volume n b view.old) l r }
    ensures { (l : Log) (r : Record)
        → Ready n b m d log.old (read_volume n b view.old) l r
        → Issued n b m result log.new view.new (read_volume n b view.old) l r }
{
    let start = d.start;
    let end = d.end;
    apply_record(view, n, b, &log[start..end]);
    issue_log(log, n, b, m, d)
}

// Issuing an operation by the shape of its record: it is written straight into the first free slot of the log, and issued from there.
#![tactic(auto)]

ghost use Rattle.std.specs.Prelude.{◌≡◌, ◌%◌, length};
ghost use Rattle.record.specs.Kind.{map_of_kind};
ghost use Rattle.volume_tree.specs.Stored.{read_volume};
ghost use Rattle.volume_tree.specs.Code.Lent.{Formed};
ghost use Rattle.log_rules.specs.Stored.{read_log};
ghost use Rattle.log_rules.specs.Code.Slots.{Logged};
ghost use Rattle.record_writer.specs.Code.Writer.{entry_record, rename_record, range_record, length_record, forder_record};
ghost use Rattle.log_draft.specs.Code.Issued.{Issuable, Waits, Issued, Kept, Room};

use log_draft::{Issuer, draft_of, issue, issue_log};
use record::kind::Kind;
use record_writer::{write_entry, write_forder, write_length, write_range, write_rename};

// Issues an operation of create file, make directory or remove.
pub fn issue_entry(
    log: &mut [u8],
    view: &mut [u8],
    n: usize,
    b: usize,
    m: usize,
    kind: Kind,
    by: Issuer,
    object: usize,
    parent: usize,
    name: &[u8],
) -> usize
    requires logged { Logged n b m log.old }
    requires formed { Formed n b view.old }
    requires room { Room m log.old }
    requires kind_value { map_of_kind kind ≡ map_of_kind Kind.CreateFile }
    requires issuable { Issuable n b (read_volume n b view.old) (entry_record kind (read_log m log.old).head.next by.program object parent name.now) }
    ensures { Issued n b m result log.new view.new (read_volume n b view.old) (read_log m log.old) (entry_record kind (read_log m log.old).head.next by.program object parent name.now) }
{
    let d = draft_of(log, m, by);
    let start = d.start;
    let end = d.end;
    write_entry(
        &mut log[start..end],
        kind,
        d.next,
        by.program,
        object,
        parent,
        name,
    );
    issue(log, view, n, b, m, d)
}

// Issues an operation of rename, which may displace an object.
pub fn issue_rename(
    log: &mut [u8],
    view: &mut [u8],
    n: usize,
    b: usize,
    m: usize,
    by: Issuer,
    object: usize,
    parent: usize,
    second: usize,
    displaced: Option<usize>,
    name: &[u8],
    second_name: &[u8],
) -> usize
    requires logged { Logged n b m log.old }
    requires formed { Formed n b view.old }
    requires room { Room m log.old }
    requires issuable { Issuable n b (read_volume n b view.old) (rename_record (read_log m log.old).head.next by.program object parent second displaced name.now second_name.now) }
    ensures { Issued n b m result log.new view.new (read_volume n b view.old) (read_log m log.old) (rename_record (read_log m log.old).head.next by.program object parent second displaced name.now second_name.now) }
{
    let d = draft_of(log, m, by);
    let start = d.start;
    let end = d.end;
    write_rename(
        &mut log[start..end],
        d.next,
        by.program,
        object,
        parent,
        second,
        displaced,
        name,
        second_name,
    );
    issue(log, view, n, b, m, d)
}

// Issues an operation of overwrite or append.
pub fn issue_range(
    log: &mut [u8],
    view: &mut [u8],
    n: usize,
    b: usize,
    m: usize,
    kind: Kind,
    by: Issuer,
    object: usize,
    offset: usize,
    content: &[u8],
) -> usize
    requires logged { Logged n b m log.old }
    requires formed { Formed n b view.old }
    requires room { Room m log.old }
    requires kind_value { map_of_kind kind ≡ map_of_kind Kind.Overwrite }
    requires issuable { Issuable n b (read_volume n b view.old) (range_record kind (read_log m log.old).head.next by.program object offset content.now) }
    ensures { Issued n b m result log.new view.new (read_volume n b view.old) (read_log m log.old) (range_record kind (read_log m log.old).head.next by.program object offset content.now) }
{
    let d = draft_of(log, m, by);
    let start = d.start;
    let end = d.end;
    write_range(
        &mut log[start..end],
        kind,
        d.next,
        by.program,
        object,
        offset,
        content,
    );
    issue(log, view, n, b, m, d)
}

// Issues an operation of set length.
pub fn issue_length(
    log: &mut [u8],
    view: &mut [u8],
    n: usize,
    b: usize,
    m: usize,
    by: Issuer,
    object: usize,
    length: usize,
) -> usize
    requires logged { Logged n b m log.old }
    requires formed { Formed n b view.old }
    requires room { Room m log.old }
    requires issuable { Issuable n b (read_volume n b view.old) (length_record (read_log m log.old).head.next by.program object length) }
    ensures { Issued n b m result log.new view.new (read_volume n b view.old) (read_log m log.old) (length_record (read_log m log.old).head.next by.program object length) }
{
    let d = draft_of(log, m, by);
    let start = d.start;
    let end = d.end;
    write_length(&mut log[start..end], d.next, by.program, object, length);
    issue(log, view, n, b, m, d)
}

// Issues an operation of forder, whose list is "lent as 2 bytes an object": "forder's change to the view is none".
pub fn issue_forder(log: &mut [u8], n: usize, b: usize, m: usize, by: Issuer, list: &[u8]) -> usize
    requires logged { Logged n b m log.old }
    requires room { Room m log.old }
    requires list_len { length list.now % 2 ≡ 0 }
    requires kept { Kept n b (forder_record (read_log m log.old).head.next by.program list.now) }
    ensures { Waits m result log.new (read_log m log.old) (forder_record (read_log m log.old).head.next by.program list.now) }
{
    let d = draft_of(log, m, by);
    let start = d.start;
    let end = d.end;
    write_forder(&mut log[start..end], d.next, by.program, list);
    issue_log(log, n, b, m, d)
}

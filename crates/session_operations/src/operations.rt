// The operations of a write: "wholly inside the length (overwrite) or beginning at the length (append)"; across the end of the file
// "an overwrite and then an append" (document 02, K1).
ghost use Rattle.std.specs.Prelude.{◌≡◌, ℕ, ◌≤◌, length};
ghost use Rattle.volume_tree.specs.Stored.{read_volume};
ghost use Rattle.log_rules.specs.Stored.{read_log};
ghost use Rattle.session.specs.Issue.{writes_at};
ghost use Rattle.log_draft.specs.Code.Issued.{AllIssued};
ghost use Rattle.session_change.specs.Code.Change.{MayIssue};

use crate::across::issue_across;
use log_draft::Issuer;
use log_issue::issue_range;
use record::kind::Kind;

// How many operations a write to a file of this length issues.
pub fn operations(len: usize, offset: usize, data: &[u8]) -> usize
    ensures { (object : ℕ) → result ≡ length (writes_at len object offset «data».now) }
{
    if data.len() == 0 {
        return 0;
    }
    if offset < len && len - offset < data.len() {
        return 2;
    }
    1
}

// Issues the operations of a write to a file of this length: an overwrite of the bytes up to the length, and an append of the rest at
// the length. The number of the first.
pub fn issue_writes(
    log: &mut [u8],
    view: &mut [u8],
    n: usize,
    b: usize,
    m: usize,
    by: Issuer,
    object: usize,
    len: usize,
    offset: usize,
    data: &[u8],
) -> usize
    requires in_bounds { 1 ≤ length «data».now }
    requires may_issue { MayIssue n b m by.program view.old log.old (writes_at len object offset «data».now) }
    ensures { AllIssued b m result log.new view.new (read_volume n b view.old) (read_log m log.old) by.program (writes_at len object offset «data».now) }
{
    if len <= offset {
        return issue_range(log, view, n, b, m, Kind::Append, by, object, len, data);
    }
    let inside = len - offset;
    if data.len() <= inside {
        return issue_range(
            log,
            view,
            n,
            b,
            m,
            Kind::Overwrite,
            by,
            object,
            offset,
            data,
        );
    }
    let old = &data[0..inside];
    let new = &data[inside..];
    issue_across(log, view, n, b, m, by, object, offset, old, len, new)
}

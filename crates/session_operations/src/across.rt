// A write across the end of a file: "an overwrite and then an append" (document 02, K1).
ghost use Rattle.std.specs.Prelude.{[], ◌∷◌};
ghost use Rattle.record.specs.Operation.{Operation};
ghost use Rattle.volume_tree.specs.Stored.{read_volume};
ghost use Rattle.log_rules.specs.Stored.{read_log};
ghost use Rattle.log_draft.specs.Code.Issued.{AllIssued};
ghost use Rattle.session_change.specs.Code.Change.{MayIssue};

use log_draft::Issuer;
use log_issue::issue_range;
use record::kind::Kind;

// Issues the overwrite of the old bytes, and then the append of the new ones. The number of the first.
pub fn issue_across(
    log: &mut [u8],
    view: &mut [u8],
    n: usize,
    b: usize,
    m: usize,
    by: Issuer,
    object: usize,
    offset: usize,
    old: &[u8],
    len: usize,
    new: &[u8],
) -> usize
    requires { MayIssue n b m by.program view.old log.old (Operation.overwrite object offset old.now ∷ Operation.append object len new.now ∷ []) }
    ensures { AllIssued b m result log.new view.new (read_volume n b view.old) (read_log m log.old) by.program (Operation.overwrite object offset old.now ∷ Operation.append object len new.now ∷ []) }
{
    let first = issue_range(log, view, n, b, m, Kind::Overwrite, by, object, offset, old);
    issue_range(log, view, n, b, m, Kind::Append, by, object, len, new);
    first
}

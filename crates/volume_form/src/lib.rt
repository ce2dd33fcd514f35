// The form of a volume (document 01, "Geometry and stored form"), for any bytes.
#![tactic(auto)]

ghost use Rattle.std.specs.Prelude.{◌≡◌};
ghost use Rattle.volume_tree.specs.Stored.{formed};

pub mod each;
pub mod parents;

use crate::each::entries_formed;
use crate::parents::{all_lead, parents_formed, parents_of};
use volume_tree::entries::is_lent;
use volume_unique::digest::digests_of;
use volume_unique::twins::all_alone;

// Whether a slice is a well-formed volume of n objects and b blocks a file.
pub fn well_formed(s: &[u8], n: usize, b: usize) -> bool
    ensures { result ≡ formed n b s.now }
{
    if is_lent(s, n, b) {
        if entries_formed(s, n, b) {
            if parents_formed(s, n, b) {
                let parents = parents_of(s, n, b);
                if all_lead(&parents, n) {
                    let digests = digests_of(s, n, b);
                    return all_alone(s, n, b, &parents, &digests);
                }
            }
        }
    }
    false
}

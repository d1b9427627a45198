ghost use Rattle.std.specs.Prelude.{◌≡◌, ◌≤◌, ℕ, IsTrue};
ghost use Rattle.s2ix_table_walk.specs.Meeting.{meeting_of};
ghost use Rattle.s2ix_table_walk.specs.Calls.{MayVisit, CallsOn};
ghost use Rattle.s2ix_table_walk.specs.Costs.{no_cost, ranges_met, IsWalkCost};

use crate::meeting::Meeting;
use crate::reader::Reader;
use s2id_union::CellUnion;
use s2ix_bag_pairs::Held;

/// Calls `f` on each pair of the target's meeting list, in order, until a call answers false, and returns whether every call answered true
/// (S2's `VisitIntersectingCells()`). It does not allocate. O(k + r + t log n).
///
/// The reader must have read nothing. Let there be k calls, t cells in the target, n ranges in the table, r of which the target meets, and
/// d binary digits in n + 1. Then the reader has counted at least k and at most k + r + t looks, and at most t * d + r + t probes. It has
/// counted at least a probe for each of the r ranges up to the first leaf that the target shares with the last pair called, and at least r
/// probes if every call answered true.
pub fn walk<R: Reader, F: FnMut(Held) -> bool>(
    reader: &mut R,
    target: &CellUnion,
    f: &mut F,
) -> bool
    requires unread { R.spent reader.old ≡ no_cost }
    requires may { MayVisit F.pre F.step f.old (meeting_of target.now (R.shown reader.old).pairs) }
    ensures same { R.shown reader.new ≡ R.shown reader.old }
    ensures visits { (calls : ℕ)
        × CallsOn F.step f.old (meeting_of target.now (R.shown reader.old).pairs) calls result f.new
        × IsWalkCost target.now (R.shown reader.old).pairs (R.shown reader.old).ranges calls (R.spent reader.new) }
    ensures whole_probes { IsTrue result → ranges_met target.now (R.shown reader.old).ranges ≤ (R.spent reader.new).probes }
{
    let mut meeting = Meeting::new(reader, target);
    while let Some(held) = meeting.advance() {
        if !f(held) {
            return false;
        }
    }
    true
}

//! The deeds of a turn. They stand together, since all ascend by their turns, and are found by a binary search.

ghost use Rattle.sim_stock.specs.{declared.deed.DatedDeed.DatedDeed as AnyDated, PaidTurns.deeds_at};
ghost use Rattle.std.specs.{List.Sorted.{IsNonDecreasingBy, IsPartitionPoint}, Prelude.{false, length, nat_lt, true, ◌+◌, ◌<◌, ◌^◌, ◌≡◌, ◌≤◌}};

use crate::deed::DatedDeed;

/// The deeds of a turn, in their order.
pub fn due_at(deeds: &[DatedDeed], turn: u32) -> &[DatedDeed]
    requires rising { IsNonDecreasingBy (λ (dated : AnyDated). dated.turn) deeds.now }
    requires turn { turn + 1 < 2 ^ 32 }
    ensures { result.now ≡ deeds_at turn deeds.now }
{
    let first = begin_of(deeds, turn);
    let end = begin_of(deeds, turn + 1);
    &deeds[first..end]
}

// Where the deeds of a turn begin, or those behind them if it has none.
fn begin_of(deeds: &[DatedDeed], turn: u32) -> usize
    requires { IsNonDecreasingBy (λ (dated : AnyDated). dated.turn) deeds.now }
    ensures within { result ≤ length deeds.now }
    ensures point { IsPartitionPoint (λ (dated : AnyDated). nat_lt dated.turn turn ≡ true) (λ (dated : AnyDated). nat_lt dated.turn turn ≡ false) deeds.now
        result }
{
    deeds.partition_point(|dated| dated.turn < turn)
}

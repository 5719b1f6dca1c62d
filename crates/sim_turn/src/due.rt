//! The commands of a match file that are given in a turn. They stand together, since all ascend by their turns, and are
//! found by halves.

ghost use Rattle.sim_base.specs.{declared.setup.Timed.Timed as AnyTimed, Turn.orders_at};
ghost use Rattle.std.specs.{List.Sorted.{IsNonDecreasing, IsPartitionPoint}, Prelude.{false, length, map, nat_lt, true, ◌+◌, ◌<◌, ◌^◌, ◌≡◌, ◌≤◌}};

use sim_base::Timed;

/// The commands that are given in a turn, in their order.
pub fn due_at(timeds: &[Timed], turn: u32) -> &[Timed]
    requires rising { IsNonDecreasing (map (λ (timed : AnyTimed). timed.turn) timeds.now) }
    requires turn { turn + 1 < 2 ^ 32 }
    ensures { map (λ (timed : AnyTimed). timed.order) result.now ≡ orders_at turn timeds.now }
{
    let first = begin_of(timeds, turn);
    let end = begin_of(timeds, turn + 1);
    &timeds[first..end]
}

// Where the commands of a turn begin, or those behind them if it has none.
fn begin_of(timeds: &[Timed], turn: u32) -> usize
    requires { IsNonDecreasing (map (λ (timed : AnyTimed). timed.turn) timeds.now) }
    ensures within { result ≤ length timeds.now }
    ensures point { IsPartitionPoint (λ (timed : AnyTimed). nat_lt timed.turn turn ≡ true) (λ (timed : AnyTimed). nat_lt timed.turn turn ≡ false) timeds.now
        result }
{
    timeds.partition_point(|timed| timed.turn < turn)
}

//! Items that are put into a caller's room, whole or not at all.

ghost use Rattle.std.specs.Prelude.{◌≡◌, ◌++◌, length, drop, true, false, nat_le};

/// Puts items at the front of the room where it is large enough, and answers whether it is. What stands behind them stays.
pub fn put<T: Copy>(items: &[T], room: &mut [T]) -> bool
    ensures fits { result ≡ nat_le (length items.now) (length room.old) }
    ensures put { result ≡ true → room.new ≡ items.now ++ drop (length items.now) room.old }
    ensures kept { result ≡ false → room.new ≡ room.old }
{
    if room.len() < items.len() {
        return false;
    }
    room[..items.len()].copy_from_slice(items);
    true
}

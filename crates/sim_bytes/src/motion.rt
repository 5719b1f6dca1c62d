//! The row of a motion: its length depends on the way. The way is lent by what the row is made of, a state or its bytes,
//! so that a row is read and told without memory and is small.

ghost use Rattle.sim_base.specs.{declared.state.Motion.TheVariants.{Going, Still}, Limits.waypoint_limit};
ghost use Rattle.sim_base.specs.Spelling.{flag_bytes, motion_bytes, moving_bytes, point_bytes};
ghost use Rattle.sim_bytes.specs.{Reading.{Reads, ReadsBy}, Rows.{front_at, IsShort, point_at, point_in, points_at}, Telling.Tells};
ghost use Rattle.std.specs.{List.flat_map, Prelude.{IfOk, length, map, OnOk, ℕ, ◌++◌, ◌+◌, ◌≡◌, ◌≤◌}};

use crate::form::RowForm;
use crate::{Buffer, ByteSink, Short, Take, tell_i32, tell_u8, tell_u32};
use sim_base::{Fixed, MAX_WAYPOINTS, Motion, Point, Row};
use std::marker::Model;

/// Whether an entity moves: one that does not has no goal, no way and is not whole. The way is lent: waypoints of a state,
/// and behind them waypoints that still stand in bytes. A row of a state has none of the second kind, and a row that was
/// taken none of the first.
#[derive(Drop)]
pub struct MotionRow<'a> {
    pub id: u32,
    pub going: bool,
    pub goal: Point,
    pub whole: bool,
    pub points: &'a [Point],
    pub stored: &'a [[u8; 8]],
}

impl<'a> Model for MotionRow<'a> {
    ghost use Rattle.{sim_base.specs.{declared.state.Motion.{Motion, TheVariants.{Going, Still}}, Limits.waypoint_limit}, sim_bytes.specs.Rows.point_in};
    ghost use Rattle.std.specs.Prelude.{if◌then◌else◌, length, map, ℕ, ◌++◌, ◌+◌, ◌≤◌};

    ghost Value = { ℕ × Motion };

    ghost view = { λ row. (row.id, if row.going then Going row.goal (row.points.now ++ map point_in row.stored.now) row.whole else Still) };

    ghost invariant = { λ row. length row.points.now + length row.stored.now ≤ waypoint_limit };
}

/// Takes a point.
#[tactic(auto, unfolding(crate::specs::Rows::point_at))]
pub fn take_point(from: &mut Take<'_>) -> Result<Point, Short>
    ensures { Reads point_at from.old result from.new }
{
    let x = from.i32()?;
    let z = from.i32()?;
    Ok(Point {
        x: Fixed::from_raw(x),
        z: Fixed::from_raw(z),
    })
}

fn no_point() -> Point {
    Point {
        x: Fixed::from_raw(0),
        z: Fixed::from_raw(0),
    }
}

/// The point that stands in eight bytes.
pub fn point_of(bytes: &[u8; 8]) -> Point
    ensures { result ≡ point_in bytes.now }
{
    let [a, b, c, d, e, f, g, h] = *bytes;
    Point {
        x: Fixed::from_raw(i32::from_le_bytes([a, b, c, d])),
        z: Fixed::from_raw(i32::from_le_bytes([e, f, g, h])),
    }
}

// Takes so many bytes.
fn take_bytes<'a>(from: &mut Take<'a>, count: usize) -> Result<&'a [u8], Short>
    ensures { ReadsBy (λ bytes. bytes.now) (front_at count) from.old result from.new }
{
    let bytes = from.bytes();
    if bytes.len() < count {
        return Err(Short);
    }
    let (front, rest) = bytes.split_at(count);
    *from = Take::new(rest);
    Ok(front)
}

// Takes so many points, as the bytes in which they stand.
fn take_way<'a>(from: &mut Take<'a>, count: usize) -> Result<&'a [[u8; 8]], Short>
    requires { count ≤ waypoint_limit }
    ensures points { ReadsBy (λ way. map point_in way.now) (points_at count) from.old result from.new }
    ensures few { IfOk result (λ way. length way.now ≡ count) }
{
    let bytes = take_bytes(from, count * 8)?;
    let (way, _) = bytes.as_chunks::<8>();
    Ok(way)
}

/// Tells a point.
#[tactic(auto, unfolding(sim_base::specs::Spelling::i32_bytes))]
pub fn tell_point<K: ByteSink>(out: &mut K, point: Point) -> Result<(), K::Fault>
    ensures { OnOk result (Tells K.holds out.old out.new (point_bytes point)) }
{
    let [a, b, c, d] = point.x.raw().to_le_bytes();
    let [e, f, g, h] = point.z.raw().to_le_bytes();
    out.tell(&[a, b, c, d, e, f, g, h])
}

fn tell_points<K: ByteSink>(out: &mut K, points: &[Point]) -> Result<(), K::Fault>
    ensures { OnOk result (Tells K.holds out.old out.new (flat_map point_bytes points.now)) }
{
    for point in points {
        tell_point(out, *point)?;
    }
    Ok(())
}

fn tell_stored<K: ByteSink>(out: &mut K, stored: &[[u8; 8]]) -> Result<(), K::Fault>
    ensures { OnOk result (Tells K.holds out.old out.new (flat_map point_bytes (map point_in stored.now))) }
{
    for bytes in stored {
        tell_point(out, point_of(bytes))?;
    }
    Ok(())
}

fn tell_flag<K: ByteSink>(out: &mut K, flag: bool) -> Result<(), K::Fault>
    ensures { OnOk result (Tells K.holds out.old out.new (flag_bytes flag)) }
{
    if flag {
        tell_u8(out, 1)
    } else {
        tell_u8(out, 0)
    }
}

fn tell_going<K: ByteSink>(
    out: &mut K,
    goal: Point,
    whole: bool,
    points: &[Point],
    stored: &[[u8; 8]],
) -> Result<(), K::Fault>
    requires { length points.now + length stored.now ≤ waypoint_limit }
    ensures { OnOk result (Tells K.holds out.old out.new (motion_bytes (Going goal (points.now ++ map point_in stored.now) whole))) }
{
    tell_u8(out, 1)?;
    tell_point(out, goal)?;
    tell_flag(out, whole)?;
    tell_u8(out, (points.len() + stored.len()) as u8)?;
    tell_points(out, points)?;
    tell_stored(out, stored)
}

fn tell_still<K: ByteSink>(out: &mut K) -> Result<(), K::Fault>
    ensures { OnOk result (Tells K.holds out.old out.new (motion_bytes Still)) }
{
    tell_u8(out, 0)?;
    tell_i32(out, 0)?;
    tell_i32(out, 0)?;
    tell_flag(out, false)?;
    tell_u8(out, 0)
}

// Tells a row piece by piece, up to 66 of them. They are gathered before they go further.
fn tell_pieces<K: ByteSink>(out: &mut K, row: &MotionRow<'_>) -> Result<(), K::Fault>
    ensures told { OnOk result (Tells K.holds out.old out.new (moving_bytes row.now)) }
    ensures short { IsShort row.now.1 }
{
    tell_u32(out, row.id)?;
    if row.going {
        tell_going(out, row.goal, row.whole, row.points, row.stored)
    } else {
        tell_still(out)
    }
}

impl<'a> RowForm<'a> for MotionRow<'a> {
    ghost use Rattle.sim_base.specs.Spelling.{motion_part, moving_bytes};
    ghost use Rattle.sim_bytes.specs.{Laws.moving_back, Laws.moving_few, Laws.prefix_nil, Rows.IsMoving, Rows.moving_at, Rows.with_id};

    ghost TAG = { 5 };

    ghost is_row = { IsMoving };

    ghost spelled = { moving_bytes };

    ghost row_at = { moving_at };

    ghost in_row = { with_id motion_part };

    fn tag() -> u8
        ensures { result ≡ 5 }
    {
        5
    }

    fn of(row: &'a Row) -> Option<MotionRow<'a>> {
        match &row.motion {
            None => None,
            Some(Motion::Still) => Some(MotionRow {
                id: row.id,
                going: false,
                goal: no_point(),
                whole: false,
                points: &[],
                stored: &[],
            }),
            Some(Motion::Going { goal, way, whole }) => Some(MotionRow {
                id: row.id,
                going: true,
                goal: *goal,
                whole: *whole,
                points: way.as_slice(),
                stored: &[],
            }),
        }
    }

    fn is_in(row: &'a Row) -> bool {
        row.motion.is_some()
    }

    #[tactic(auto, unfolding(crate::specs::Rows::moving_at, crate::specs::Rows::motion_at))]
    fn take(from: &mut Take<'a>) -> Result<MotionRow<'a>, Short> {
        let id = from.u32()?;
        let mode = from.u8()?;
        let goal = take_point(from)?;
        let whole = from.u8()?;
        let count = usize::from(from.u8()?);
        if count > MAX_WAYPOINTS {
            return Err(Short);
        }
        let stored = take_way(from, count)?;
        Ok(MotionRow {
            id,
            going: mode != 0,
            goal,
            whole: whole != 0,
            points: &[],
            stored,
        })
    }

    fn tell<K: ByteSink>(&self, out: &mut K) -> Result<(), K::Fault> {
        let mut gathered = Buffer::<527>::new();
        match tell_pieces(&mut gathered, self) {
            Ok(()) => out.tell(gathered.bytes()),
            Err(never) => match never {},
        }
    }

    ghost read_back = { moving_back };

    ghost no_prefix = { prefix_nil moving_at moving_bytes IsMoving moving_back };

    ghost few_bytes = { moving_few };
}

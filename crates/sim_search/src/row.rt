//! A number for one cell: half the least cost of a walk to it. A row of such numbers, one from each landmark.

ghost use Rattle.std.specs.Prelude.{◌≡◌, ◌^◌, ◌<◌};
ghost use Rattle.sim_search.specs.Rows.{alike as alike_by, apart, between as between_rows, half_of, number_of, row_with as row_by};

/// How many landmarks there are.
pub const LANDMARKS: usize = 8;

/// Half the cost of a walk from each landmark. All costs are even.
pub type Row = [u16; 8];

// Half costs are cut here, so along a step they still differ by no more than half of what it costs.
const MOST: u32 = 65_535;

// Half a cost, cut.
fn half(cost: u32) -> u16
    ensures { result ≡ half_of cost }
{
    (cost / 2).min(MOST) as u16
}

/// Half a cost, cut, or nothing where there is none.
pub fn number(cost: Option<u32>) -> u16
    ensures { result ≡ number_of cost }
{
    match cost {
        Some(cost) => half(cost),
        None => 0,
    }
}

/// The row of a cell before a landmark is set.
pub fn alike(cost: Option<u32>) -> Option<Row>
    ensures { result ≡ alike_by cost }
{
    match cost {
        Some(_) => Some([0; 8]),
        None => None,
    }
}

/// The row of a cell with the cost from one more landmark.
pub fn row_with(row: Option<Row>, which: usize, cost: Option<u32>) -> Option<Row>
    requires { which < 8 }
    ensures { result ≡ row_by which row cost }
{
    let mut row = row?;
    row[which] = half(cost?);
    Some(row)
}

// How far two rows lie apart at most.
#[inline(always)]
fn furthest(a: &Row, b: &Row) -> u16
    ensures { result ≡ apart 8 a.now b.now }
{
    let mut most = 0u16;
    for i in 0..LANDMARKS {
        most = most.max(a[i].abs_diff(b[i]));
    }
    most
}

/// What a walk between the cells of two rows costs at least: nothing is known without a row.
#[inline(always)]
pub fn between(a: &Option<Row>, b: &Option<Row>) -> u32
    ensures is { result ≡ between_rows a.now b.now }
    ensures small { result < 2 ^ 17 }
{
    match (a, b) {
        (Some(a), Some(b)) => 2 * u32::from(furthest(a, b)),
        _ => 0,
    }
}

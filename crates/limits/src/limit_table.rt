// The constant table of class A's limits, and its lookup.
ghost use Rattle.std.specs.Prelude.{cond, ◌≡◌};
ghost use Rattle.limits.specs.Limit.{has_limit, limit_row};

use crate::limit::{FIRST_LIMITED, LIMITED_ORDERS, has_limit};

// A row of the table: an order, and its limit in milliamperes as a numerator and a denominator, in lowest terms. The parts have no names, so that each row of
// the table is one short line.
#[derive(Clone, Copy)]
pub struct LimitRow(pub u16, pub u16, pub u16);

// Class A of IEC 61000-3-2. It is printed in amperes, and with one row, 0.15 x 15/n, for the odd orders 15..39
// and one, 0.23 x 8/n, for the even orders 8..40.
static CLASS_A: [LimitRow; LIMITED_ORDERS] = [
    LimitRow(2, 1080, 1),
    LimitRow(3, 2300, 1),
    LimitRow(4, 430, 1),
    LimitRow(5, 1140, 1),
    LimitRow(6, 300, 1),
    LimitRow(7, 770, 1),
    LimitRow(8, 230, 1),
    LimitRow(9, 400, 1),
    LimitRow(10, 184, 1),
    LimitRow(11, 330, 1),
    LimitRow(12, 460, 3),
    LimitRow(13, 210, 1),
    LimitRow(14, 920, 7),
    LimitRow(15, 150, 1),
    LimitRow(16, 115, 1),
    LimitRow(17, 2250, 17),
    LimitRow(18, 920, 9),
    LimitRow(19, 2250, 19),
    LimitRow(20, 92, 1),
    LimitRow(21, 750, 7),
    LimitRow(22, 920, 11),
    LimitRow(23, 2250, 23),
    LimitRow(24, 230, 3),
    LimitRow(25, 90, 1),
    LimitRow(26, 920, 13),
    LimitRow(27, 250, 3),
    LimitRow(28, 460, 7),
    LimitRow(29, 2250, 29),
    LimitRow(30, 184, 3),
    LimitRow(31, 2250, 31),
    LimitRow(32, 115, 2),
    LimitRow(33, 750, 11),
    LimitRow(34, 920, 17),
    LimitRow(35, 450, 7),
    LimitRow(36, 460, 9),
    LimitRow(37, 2250, 37),
    LimitRow(38, 920, 19),
    LimitRow(39, 750, 13),
    LimitRow(40, 46, 1),
];

// The row of an order, for an order that has a limit.
pub(crate) fn row_of(order: u32) -> Option<LimitRow>
    ensures { result ≡ cond (has_limit order) (Some (limit_row order)) None }
{
    if has_limit(order) {
        Some(CLASS_A[(order - FIRST_LIMITED) as usize])
    } else {
        None
    }
}

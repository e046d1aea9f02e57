// The harmonic orders.
ghost use Rattle.std.specs.Prelude.{◌≡◌};
ghost use Rattle.rows.specs.Orders.{is_order};

// The orders are 1..ORDER_COUNT.
pub const ORDER_COUNT: usize = 40;

// The order is one of a row's.
pub fn is_order(order: u32) -> bool
    ensures { result ≡ is_order order }
{
    0 < order && order as usize <= ORDER_COUNT
}

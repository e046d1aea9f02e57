// The line of an order.
ghost use Rattle.std.specs.Prelude.{true, ◌≡◌, ◌+◌, ◌≤◌, ◌++◌, take, drop, pos, length};
ghost use Rattle.rows.specs.Orders.{order_count};
ghost use Rattle.columns.specs.Column.{fits_column, column_text};
ghost use Rattle.listing.specs.Listing.{text_line_length, order_line, left_out, order_text};

use column_writing::fill_column;

// The bytes of a line.
pub(crate) const LINE_LENGTH: usize = 40;

// The width of an order's column, and of its values' columns.
const ORDER_WIDTH: usize = 3;

const VALUE_WIDTH: usize = 12;

// An order, and its three values.
#[derive(Drop)]
pub(crate) struct OrderLine {
    pub(crate) order: u32,
    pub(crate) group: u32,
    pub(crate) subgroup: u32,
    pub(crate) smoothed: u32,
}

impl OrderLine {
    // Puts the line into a buffer from a place on unless it is left out, and answers the place after it.
    #[tactic(auto, using(crate::proofs::Lengths::length_line), unfolding(crate::specs::Listing::order_text))]
    pub(crate) fn put(&self, buffer: &mut [u8], at: usize) -> usize
        requires order_le_order_count { self.now.order ≤ order_count }
        requires room { at + text_line_length ≤ length buffer.old }
        ensures value { result ≡ at + length (order_text self.now.order self.now.group self.now.subgroup self.now.smoothed) }
        ensures bound { result ≤ at + text_line_length }
        ensures buffer_after { buffer.new ≡ take at buffer.old ++ order_text self.now.order self.now.group self.now.subgroup self.now.smoothed ++ drop result buffer.old }
    {
        if self.is_left_out() {
            return at;
        }
        self.fill(&mut buffer[at..at + LINE_LENGTH]);
        at + LINE_LENGTH
    }

    // Three zeros, and not order 1.
    fn is_left_out(&self) -> bool
        ensures { result ≡ left_out self.now.order self.now.group self.now.subgroup self.now.smoothed }
    {
        self.group == 0 && self.subgroup == 0 && self.smoothed == 0 && self.order != 1
    }

    // Fills a line with the columns, and a newline: from the right, so that no part of it has to be held while another is filled.
    #[tactic(auto, using(crate::proofs::Lengths::order_fits, crate::proofs::Lengths::value_fits), unfolding(crate::specs::Listing::order_line))]
    fn fill(&self, line: &mut [u8])
        requires order_le_order_count { self.now.order ≤ order_count }
        requires line_len { length line.old ≡ text_line_length }
        ensures { line.new ≡ order_line self.now.order self.now.group self.now.subgroup self.now.smoothed }
    {
        let (columns, end) = line.split_at_mut(LINE_LENGTH - 1);
        end.copy_from_slice(b"\n");
        let (columns, smoothed) = columns.split_at_mut(ORDER_WIDTH + 2 * VALUE_WIDTH);
        fill_number(smoothed, self.smoothed);
        let (columns, subgroup) = columns.split_at_mut(ORDER_WIDTH + VALUE_WIDTH);
        fill_number(subgroup, self.subgroup);
        let (order, group) = columns.split_at_mut(ORDER_WIDTH);
        fill_number(group, self.group);
        fill_number(order, self.order);
    }
}

// Fills a column with a number that fits it.
fn fill_number(column: &mut [u8], number: u32)
    requires { fits_column (length column.old) (pos number) ≡ true }
    ensures { column.new ≡ column_text (length column.old) (pos number) }
{
    fill_column(column, i64::from(number)).unwrap();
}

// What an operation asks of the sheet of a hall.
use records::Below;

// What an operation asks, as far as its own numbers tell.
#[derive(Clone, Copy, Debug, PartialEq, Eq, Hash)]
pub enum Ask<A, const CELLS: usize, const TOTALS: usize> {
    // something of a cell
    Cell(Below<CELLS>, A),
    // the closing of a round
    Close(u16),
    // a total
    Total(Below<TOTALS>),
}

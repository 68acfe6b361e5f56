// What the society's mints and the tender site ask for, from the text of a bid book: the award, its sheet and its page, the book written out
// again, its sizes, the price of a proposed split, and how much too dear a bidder was. Each is refused first as reading refuses the text. The award, the sheet and the
// page are sampled by the printed table, or by a table that comes as text before the book's; its refusals come first.
#![tactic(auto)]

// The modules are private: the functions named here are the entries. Those of `bookanswers` and `tableanswers` clear nothing.
mod awards;
mod by_table;
mod of_bidder;
mod written;

pub use awards::clear;
pub use bookanswers::{price_split, sizes, write};
pub use by_table::{clear_by_table, page_by_table, sheet_by_table};
pub use of_bidder::too_dear;
pub use tableanswers::{printed_table, write_table};
pub use written::{page, sheet};

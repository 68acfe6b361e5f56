// The rows of an award as numbers, put into a lent list: seven for each.
#![tactic(auto)]

ghost use Rattle.std.specs.Prelude.{◌≡◌};
ghost use Rattle.printer.specs.Written.{written};
ghost use Rattle.rownumbers.specs.RowNumbers.{covered, amount, row_numbers, award_numbers, RowsFit};

use award::{Award, Row, Total};

// A total as C has it, without enums: 1 and the amount, or 0 and 0.
fn total_numbers(total: Total) -> (u64, u64)
    ensures { result ≡ (covered total, amount total) }
{
    match total {
        Total::Amount(cents) => (1, money::magnitude(cents)),
        Total::Nothing => (0, 0),
    }
}

#[tactic(auto, unfolding(crate::specs::RowNumbers::row_numbers))]
fn row_numbers(row: &Row) -> [u64; 7]
    ensures { result ≡ row_numbers row.now }
{
    let (is_amount, amount) = total_numbers(row.without);
    [
        row.bidder,
        row.segment,
        row.quantity.0,
        money::magnitude(row.price),
        row.sample.0,
        is_amount,
        amount,
    ]
}

// The rows of an award, from the list's beginning on.
pub fn put_rows(rows: &mut [u64], award: Award)
    requires { RowsFit award rows.old }
    ensures { rows.new ≡ written rows.old 0 (award_numbers award) }
{
    for (i, row) in award.listed().iter().enumerate() {
        let at = 7 * i;
        rows[at..at + 7].copy_from_slice(&row_numbers(row));
    }
}

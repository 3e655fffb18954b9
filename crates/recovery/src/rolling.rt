// Rolling a row forward: a read, and a write of a token's file again, raise the row's ends.
ghost use Rattle.std.specs.Prelude.{◌≡◌};
ghost use Rattle.recovery.specs.RollSteps.{raised};

use crate::Row;

// Raises the ends of a lent row: the current one to at least `current`, the token's to at least `token`.
fn raise(row: &mut Row, current: u64, token: u64)
    ensures { row.new ≡ raised row.old current token }
{
    row.currentend = row.currentend.max(current);
    row.tokenend = row.tokenend.max(token);
}

// The same by value, for callers: the record lies in a local, which is lent. Document 01 asks for the function over a lent row, so that
// both stand.
pub fn raised_row(mut row: Row, current: u64, token: u64) -> Row
    ensures { result ≡ raised row current token }
{
    raise(&mut row, current, token);
    row
}

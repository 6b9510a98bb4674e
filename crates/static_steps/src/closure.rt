//! The closure of the arrows: which table reaches which, through any others.

ghost use Rattle.std.specs.Prelude.{◌≡◌, ◌<◌, ◌≤◌, ◌&&◌, ◌||◌, ℕ, length};
ghost use Rattle.static_steps.specs.Squares.{leads_in, closure};

use crate::table_set::{TableSet, has, union};

/// Closes the rows: afterwards each has every table that its own reaches.
pub fn close(rows: &mut [TableSet])
    requires { length rows.old ≤ 64 }
    ensures { (a b : ℕ) → leads_in rows.new a b ≡ closure (leads_in rows.old) (length rows.old) a b }
{
    for through in 0..rows.len() as u8 {
        close_through(rows, through);
    }
}

// Adds to each row that has the table what that table's own row has.
fn close_through(rows: &mut [TableSet], through: u8)
    requires few { length rows.old ≤ 64 }
    requires within { through < length rows.old }
    ensures { (a b : ℕ) → leads_in rows.new a b ≡ (leads_in rows.old a b || (leads_in rows.old a through && leads_in rows.old through b)) }
{
    let reached = rows[usize::from(through)];
    for row in rows.iter_mut() {
        if has(*row, through) {
            *row = union(*row, reached);
        }
    }
}

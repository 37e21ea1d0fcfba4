//! What the crates below show of all files.

ghost use Rattle.ltx_command.specs.Laws.{Laws};

use ltx_format::{faultless_headers, one_header};
use replica_store::files_have_one_list;

/// What files have as their list, and what their headers tell. Does nothing: its clause holds of all files.
pub fn laws()
    ensures { Laws }
{
    faultless_headers();
    one_header();
    files_have_one_list();
}

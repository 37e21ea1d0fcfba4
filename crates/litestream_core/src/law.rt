//! What the crates below show of all files.

ghost use Rattle.litestream_core.specs.Laws.{Laws};

use ltx_format::{faultless_headers, one_header};
use restore_apply::{faithful_chains_make_recorded_states, plans_make_one_state};

/// What a plan's files make, and what their headers tell. Does nothing: its clause holds of all files.
pub fn laws()
    ensures { Laws }
{
    faithful_chains_make_recorded_states();
    plans_make_one_state();
    faultless_headers();
    one_header();
}

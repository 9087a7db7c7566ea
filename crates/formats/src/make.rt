// A plan from tables, refused as a plan's bytes are.
ghost use Rattle.std.specs.Prelude.{◌≡◌, ℕ, List, ◌++◌};
ghost use Rattle.board.specs.Plans.{planned};
ghost use Rattle.board.specs.Viewed.{given};
ghost use Rattle.formats.specs.Decode.{TwoByteSets, decode, read_as, with_rest};
ghost use Rattle.formats.specs.Wire.{encode};

use crate::fault::PlanFault;
use board::plan::{Plan, Tables};

// The plan of these tables. What is wrong with them is refused with the number and the place that
// reading their bytes would give.
pub fn plan_from_tables(tables: &Tables) -> Result<Plan, PlanFault>
    ensures answer { (rest : List ℕ) → read_as result rest ≡ with_rest rest (planned (given tables.now)) }
    ensures as_read { TwoByteSets (given tables.now) → (rest : List ℕ) → read_as result rest ≡ decode (encode (given tables.now) ++ rest) }
{
    Ok(Plan::from_tables(tables)?)
}

// Writing a plan into a buffer.
ghost use Rattle.std.specs.Prelude.{◌≡◌, ◌+◌, ◌*◌, map, length, drop, IfOk, Ok};
ghost use Rattle.board.specs.Plans.{bits_of};
ghost use Rattle.board.specs.Viewed.{parts};
ghost use Rattle.formats.specs.Decode.{decode};
ghost use Rattle.formats.specs.Wire.{encode, head, twos};
ghost use Rattle.formats.specs.Written.{left, wrote};

use crate::fault::PlanFault;
use board::plan::Plan;
use numbers::number::TaskNo;
use numbers::set::Set;

// Writes the sets, two bytes each: by place, since a proof knows nothing of the bytes that a loop over `chunks_exact_mut`
// writes.
fn put_sets(out: &mut [u8], sets: &[Set<TaskNo>])
    requires { length out.old ≡ 2 * length sets.now }
    ensures { out.new ≡ twos (map bits_of sets.now) }
{
    for (i, set) in sets.iter().enumerate() {
        out[2 * i..2 * i + 2].copy_from_slice(&set.bits().to_le_bytes());
    }
}

// The first fourteen bytes.
fn head_of(plan: &Plan) -> [u8; 14]
    ensures { result ≡ head (parts plan.now) }
{
    let counts = plan.counts();
    let tables = plan.tables();
    let [start_low, start_high] = tables.start.bits().to_le_bytes();
    let [favoured_low, favoured_high] = tables.favoured.bits().to_le_bytes();
    [
        b'P',
        b'L',
        b'N',
        1,
        0,
        counts.tasks,
        counts.lines,
        counts.events,
        tables.policy,
        tables.rule,
        start_low,
        start_high,
        favoured_low,
        favoured_high,
    ]
}

// Puts the plan's bytes at the front of the buffer and answers their number. A buffer that is too
// short is refused and left as found; what stands after the plan stays.
pub fn write_plan(plan: &Plan, out: &mut [u8]) -> Result<usize, PlanFault>
    ensures answer { result ≡ wrote (encode (parts plan.now)) out.old }
    ensures buffer { out.new ≡ left (encode (parts plan.now)) out.old }
    ensures reads_back { IfOk result (λ size. decode out.new ≡ Ok (parts plan.now, drop size out.old)) }
{
    let counts = plan.counts();
    let levels_at = 14 + counts.tasks as usize;
    let wakes_at = levels_at + counts.lines as usize;
    let size = wakes_at + 2 * counts.events as usize;
    if out.len() < size {
        return Err(PlanFault::Buffer(out.len()));
    }
    let tables = plan.tables();
    out[..14].copy_from_slice(&head_of(plan));
    out[14..levels_at].copy_from_slice(tables.priorities);
    out[levels_at..wakes_at].copy_from_slice(tables.levels);
    put_sets(&mut out[wakes_at..size], tables.wakes);
    Ok(size)
}

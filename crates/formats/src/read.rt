// Reading a plan from bytes.
ghost use Rattle.std.specs.Prelude.{◌≡◌, ℕ, ◌+◌, ◌*◌, ◌<◌, ◌≤◌, List, ◌++◌, map, length, take, IfOk, IfErr, Ok, OnErr, slice_index};
ghost use Rattle.board.specs.Plans.{bits_of, count_tests, number_tests, planned};
ghost use Rattle.board.specs.Refusing.{checked, ComesFirst};
ghost use Rattle.board.specs.Viewed.{made, parts};
ghost use Rattle.formats.specs.Decode.{BeginsWithAPlan, Bytes, byte_tests, decode, head_tests, parts_at, plan_and_rest, size_at, sized};
ghost use Rattle.formats.specs.Wire.{encode, word, words};

use crate::fault::PlanFault;
use board::making::check_numbers;
use board::plan::{Counts, Plan, Tables};
use board::refusal::PlanRefusal;
use numbers::number::TaskNo;
use numbers::set::Set;
use std::array;

fn word_at(bytes: &[u8], i: usize) -> u16
    requires { i + 1 < length bytes.now }
    ensures { result ≡ word bytes.now i }
{
    u16::from_le_bytes([bytes[i], bytes[i + 1]])
}

fn check_head(bytes: &[u8]) -> Result<(), PlanFault>
    ensures { result ≡ checked (head_tests bytes.now) }
{
    if bytes.len() < 14 {
        return Err(PlanFault::Short(bytes.len()));
    }
    if !bytes.starts_with(b"PLN") {
        return Err(PlanFault::Mark);
    }
    if word_at(bytes, 3) != 1 {
        return Err(PlanFault::Version);
    }
    Ok(())
}

// The sets that stand in the bytes, first in sixteen places, since memory is fixed.
fn sets_in(bytes: &[u8], count: usize) -> [Set<TaskNo>; 16]
    requires few { count ≤ 16 }
    requires whole { length bytes.now ≡ 2 * count }
    ensures { map bits_of (take count result) ≡ words bytes.now }
{
    array::from_fn(|i| {
        if i < count {
            Set::from_bits(word_at(bytes, 2 * i))
        } else {
            Set::from_bits(0)
        }
    })
}

// The plan whose parts stand in the bytes.
fn plan_at(bytes: &[u8]) -> Result<Plan, PlanRefusal>
    requires numbered { Ok tt ≡ checked (count_tests (slice_index bytes.now 5) (slice_index bytes.now 6) (slice_index bytes.now 7) ++ number_tests (slice_index bytes.now 8) (slice_index bytes.now 9)) }
    requires whole { size_at bytes.now ≤ length bytes.now }
    ensures { made result ≡ planned (parts_at bytes.now) }
{
    let levels_at = 14 + bytes[5] as usize;
    let wakes_at = levels_at + bytes[6] as usize;
    let events = bytes[7] as usize;
    let wakes = sets_in(&bytes[wakes_at..wakes_at + 2 * events], events);
    Plan::from_tables(&Tables {
        policy: bytes[8],
        rule: bytes[9],
        start: Set::from_bits(word_at(bytes, 10)),
        favoured: Set::from_bits(word_at(bytes, 12)),
        priorities: &bytes[14..levels_at],
        levels: &bytes[levels_at..wakes_at],
        wakes: &wakes[..events],
    })
}

// The plan that begins the bytes, and its size.
fn parse(bytes: &[u8]) -> Result<(Plan, usize), PlanFault>
    ensures answer { sized bytes.now result ≡ decode bytes.now }
    ensures size { IfOk result (λ v. v.1 ≤ length bytes.now) }
    ensures bytes { Bytes bytes.now }
{
    check_head(bytes)?;
    let counts = Counts {
        tasks: bytes[5],
        lines: bytes[6],
        events: bytes[7],
    };
    check_numbers(counts, bytes[8], bytes[9])?;
    let size = 14 + counts.tasks as usize + counts.lines as usize + 2 * counts.events as usize;
    if bytes.len() < size {
        return Err(PlanFault::Short(bytes.len()));
    }
    let plan = plan_at(bytes)?;
    Ok((plan, size))
}

// The plan that begins the bytes, and the bytes after it.
pub fn read_plan(bytes: &[u8]) -> Result<(Plan, &[u8]), PlanFault>
    ensures answer { plan_and_rest result ≡ decode bytes.now }
    ensures whole { IfOk result (λ read. encode (parts read.0) ++ read.1.now ≡ bytes.now) }
    ensures one_form { IfOk result (λ read. (other : List ℕ) → Bytes other → decode other ≡ Ok (parts read.0, read.1.now) → other ≡ bytes.now) }
    ensures no_further { IfOk result (λ read. (more : List ℕ) → decode (encode (parts read.0) ++ more) ≡ Ok (parts read.0, more)) }
    ensures first { IfErr result (λ fault. ComesFirst (byte_tests bytes.now) fault) }
    ensures no_plan { OnErr result (BeginsWithAPlan bytes.now → ⊥) }
{
    let (plan, size) = parse(bytes)?;
    Ok((plan, &bytes[size..]))
}

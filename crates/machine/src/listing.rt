// Applying a list of calls.
ghost use Rattle.std.specs.Prelude.{◌≡◌, ◌≤◌, length};
ghost use Rattle.machine.specs.Applied.{AppliedOrShort};
ghost use Rattle.machine.specs.Making.{MakesAll};

use crate::machine::Machine;
use board::nesting::NestingRule;
use board::plan::Plan;
use kernel::call::Call;
use policy::policies::Policy;
use thiserror::Error;

impl<P: Policy> Machine<P> {
    fn apply_all(&mut self, calls: &[Call], out: &mut [(u8, u8)])
        requires { length calls.now ≤ length out.old }
        ensures { MakesAll P.Policy.chosen calls.now self.old self.new out.old out.new }
    {
        // The entries are written by index: of those that are written through `iter_mut`, a proof would know nothing.
        for (k, call) in calls.iter().enumerate() {
            out[k] = self.apply(*call);
        }
    }
}

// The buffer for the answers is shorter than the list of calls.
#[derive(Clone, Copy, Debug, PartialEq, Eq, Error)]
#[error("the buffer has room for the answers of {length} calls, and the list is longer")]
pub struct ShortBuffer {
    pub length: usize,
}

impl ShortBuffer {
    // As it is printed.
    pub fn number(&self) -> u8
        ensures { result ≡ 10 }
    {
        10
    }

    pub fn place(&self) -> usize
        ensures { result ≡ self.now.length }
    {
        self.length
    }
}

// Starts a machine, applies the calls, and writes the two numbers of each into the buffer.
pub fn apply_from_start<P: Policy + Drop, N: NestingRule>(
    plan: Plan,
    policy: P,
    rule: &N,
    calls: &[Call],
    out: &mut [(u8, u8)],
) -> Result<Machine<P>, ShortBuffer>
    ensures { AppliedOrShort plan policy (P.Policy.chosen policy) (N.NestingRule.ranked rule.now) calls.now out.old out.new result }
{
    if out.len() < calls.len() {
        return Err(ShortBuffer { length: out.len() });
    }
    let mut machine = Machine::start(plan, policy, rule);
    machine.apply_all(calls, out);
    Ok(machine)
}

#[cfg(test)]
mod tests {
    use super::*;
    use board::plan::Tables;
    use numbers::number::{EventNo, LineNo};
    use numbers::set::Set;
    use std::test::Fail;

    #[test]
    fn fourteen_calls(rt: HostRuntime) -> Result<(), Fail> {
        let plan = Plan::from_tables(&Tables {
            policy: 1,
            rule: 1,
            start: Set::from_bits(1),
            favoured: Set::from_bits(0),
            priorities: &[10, 20],
            levels: &[64],
            wakes: &[Set::from_bits(2)],
        })?;
        let calls = [
            Call::Go,
            Call::Go,
            Call::Go,
            Call::Go,
            Call::Go,
            Call::Go,
            Call::Go,
            Call::Go,
            Call::Raise(LineNo(0)),
            Call::Enter(LineNo(0)),
            Call::Post(EventNo(0)),
            Call::Leave,
            Call::Go,
            Call::Leave,
        ];
        let wanted = [
            (0, 1),
            (0, 1),
            (0, 1),
            (0, 1),
            (0, 1),
            (0, 1),
            (0, 1),
            (0, 2),
            (100, 2),
            (0, 18),
            (0, 18),
            (19, 18),
            (0, 18),
            (0, 1),
            (7, 7),
        ];
        let mut out = [(7, 7); 15];
        assert!(rt;
            apply_from_start(plan, plan.policy(), &plan.nesting(), &calls, &mut out).is_ok()
        );
        assert_eq!(rt; out, wanted);
        Ok(())
    }
}

// The policies and the nesting rules that a plan can name.
ghost use Rattle.std.specs.Prelude.{◌≡◌};
ghost use Rattle.board.specs.Kinds.{policy_from, rule_from};

use crate::refusal::PlanRefusal;

#[derive(Clone, Copy, Debug, PartialEq, Eq)]
pub enum PolicyKind {
    Priority = 1,
    Stay = 2,
    Shared = 3,
}

impl TryFrom<u8> for PolicyKind {
    type Error = PlanRefusal;

    ghost try_from_gives = { λ number kind. kind ≡ policy_from number };

    fn try_from(number: u8) -> Result<PolicyKind, PlanRefusal> {
        match number {
            1 => Ok(PolicyKind::Priority),
            2 => Ok(PolicyKind::Stay),
            3 => Ok(PolicyKind::Shared),
            _ => Err(PlanRefusal::PolicyNumber),
        }
    }
}

// How a line's rank comes from its level: the level divided by 32, by 64, or rank 0 for all.
#[derive(Clone, Copy, Debug, PartialEq, Eq)]
pub enum RankRule {
    By32 = 1,
    By64 = 2,
    Flat = 3,
}

impl TryFrom<u8> for RankRule {
    type Error = PlanRefusal;

    ghost try_from_gives = { λ number rule. rule ≡ rule_from number };

    fn try_from(number: u8) -> Result<RankRule, PlanRefusal> {
        match number {
            1 => Ok(RankRule::By32),
            2 => Ok(RankRule::By64),
            3 => Ok(RankRule::Flat),
            _ => Err(PlanRefusal::RuleNumber),
        }
    }
}

// The rules of unions and differences: what is kept of a key that both trees have.
ghost use Rattle.std.specs.Prelude.{◌≡◌};
ghost use Rattle.model.specs.Rules.{kept, diff_by};
ghost use Rattle.answers.specs.Answers.{answer};
ghost use Rattle.sets.specs.United.{merged};
ghost use Rattle.sets.specs.Words.{word_by};
ghost use Rattle.sets.specs.Numbers.{union_number, difference_number, UnionRuleOf, DifferenceRuleOf};

use answers::Refusal;

/// What a union keeps of a key that both trees have: the left value, the right, the smaller, the larger, or the sum of the two.
#[derive(Clone, Copy, Debug, PartialEq, Eq)]
pub enum UnionRule {
    Left,
    Right,
    Smaller,
    Larger,
    Sum,
}

impl TryFrom<u32> for UnionRule {
    type Error = Refusal;

    ghost try_from_gives = { UnionRuleOf };

    fn try_from(number: u32) -> Result<UnionRule, Refusal> {
        match number {
            0 => Ok(UnionRule::Left),
            1 => Ok(UnionRule::Right),
            2 => Ok(UnionRule::Smaller),
            3 => Ok(UnionRule::Larger),
            4 => Ok(UnionRule::Sum),
            _ => Err(Refusal::Rule),
        }
    }
}

impl UnionRule {
    // A sum that does not fit wraps here; the call has refused it before.
    // Two rules at a time: a `match` over all five becomes a table of places to jump to, which is constant data.
    #[tactic(auto, unfolding(crate::specs::Words::word_by, model::specs::Rules::merge_by))]
    fn merge(self, x: u32, y: u32) -> u32
        ensures { result ≡ word_by (union_number self) x y }
    {
        if self == UnionRule::Sum {
            return x.wrapping_add(y);
        }
        if matches!(self, UnionRule::Left | UnionRule::Right) {
            return if self == UnionRule::Left { x } else { y };
        }
        if self == UnionRule::Smaller {
            x.min(y)
        } else {
            x.max(y)
        }
    }

    // The value of the root's key, merged with the other tree's where that has the key too. `first` says that the root is the left tree's.
    pub(crate) fn merged(self, first: bool, value: u32, other: Option<u32>) -> u32
        ensures { result ≡ merged first (word_by (union_number self)) value (answer other) }
    {
        let Some(other) = other else {
            return value;
        };
        if first {
            self.merge(value, other)
        } else {
            self.merge(other, value)
        }
    }
}

/// What a difference keeps of a left key that the right has too: nothing, the left value unless the two are equal, the left value, or left minus right where that is above 0.
#[derive(Clone, Copy, Debug, PartialEq, Eq)]
pub enum DifferenceRule {
    Drop,
    DropEqual,
    Left,
    Minus,
}

impl TryFrom<u32> for DifferenceRule {
    type Error = Refusal;

    ghost try_from_gives = { DifferenceRuleOf };

    fn try_from(number: u32) -> Result<DifferenceRule, Refusal> {
        match number {
            0 => Ok(DifferenceRule::Drop),
            1 => Ok(DifferenceRule::DropEqual),
            2 => Ok(DifferenceRule::Left),
            3 => Ok(DifferenceRule::Minus),
            _ => Err(Refusal::Rule),
        }
    }
}

impl DifferenceRule {
    // Two rules at a time, for the same reason.
    #[tactic(auto, unfolding(model::specs::Rules::diff_by))]
    fn diff(self, x: u32, y: u32) -> Option<u32>
        ensures { answer result ≡ diff_by (difference_number self) x y }
    {
        if matches!(self, DifferenceRule::Drop | DifferenceRule::Minus) {
            return if self == DifferenceRule::Minus && y < x {
                Some(x - y)
            } else {
                None
            };
        }
        if self == DifferenceRule::DropEqual && x == y {
            None
        } else {
            Some(x)
        }
    }

    // The value of a left key, or that it goes: the rule decides where the right has the key.
    pub(crate) fn kept(self, x: u32, right: Option<u32>) -> Option<u32>
        ensures { answer result ≡ kept (diff_by (difference_number self)) x (answer right) }
    {
        match right {
            Some(y) => self.diff(x, y),
            None => Some(x),
        }
    }
}

//! The operators, and what they make of two numbers.
ghost use Rattle.std.specs.Prelude.{◌≡◌, ◌≢◌, IfErr, IfNone, IfOk, IfSome, OnErr, neg_ℤ};
ghost use Rattle.console.specs.Expression.{in_range, result_of};
ghost use Rattle.console.specs.Grammar.{rank_of, tighter};
ghost use Rattle.console.specs.Refusals.{complaint_of};

use crate::arithmetic::complaint::Complaint;

/// An operator between two expressions.
#[derive(Clone, Copy)]
pub enum Operator {
    /// `+`
    Plus,
    /// `-`
    Minus,
    /// `*`
    Times,
    /// `/`, which truncates toward zero.
    Divide,
    /// `%`, which has the sign of the left side.
    Remainder,
}

/// How tightly a part of an expression holds together.
#[derive(Clone, Copy, PartialEq, Eq)]
pub enum Rank {
    /// Products, with `+` and `-` between them.
    Sum,
    /// Factors, with `*`, `/` and `%` between them.
    Product,
    /// A number, a name, a negation or a sum in brackets.
    Factor,
}

impl Rank {
    /// Returns the rank of what stands between the operators of this one.
    pub fn tighter(self) -> Option<Rank>
        ensures some { IfSome result (λ inner. (inner ≡ tighter self) × (self ≢ Rank.Factor)) }
        ensures none { IfNone result (self ≡ Rank.Factor) }
    {
        match self {
            Rank::Sum => Some(Rank::Product),
            Rank::Product => Some(Rank::Factor),
            Rank::Factor => None,
        }
    }
}

impl Operator {
    /// Returns the rank of what the operator makes.
    pub fn rank(self) -> Rank
        ensures { result ≡ rank_of self }
    {
        match self {
            Operator::Plus | Operator::Minus => Rank::Sum,
            Operator::Times | Operator::Divide | Operator::Remainder => Rank::Product,
        }
    }

    /// Returns what the operator makes of two numbers.
    ///
    /// # Errors
    /// `DivisionByZero` where `/` or `%` has zero on its right, and `Overflow` where the result
    /// does not fit.
    #[tactic(auto, unfolding(crate::specs::Expression::result_of))]
    pub fn apply(self, left: i64, right: i64) -> Result<i64, Complaint>
        ensures ok { IfOk result (λ x. result_of self left right ≡ Some x) }
        ensures err { OnErr result (result_of self left right ≡ None) }
        ensures complaint { IfErr result (λ c. c ≡ complaint_of self right) }
    {
        match self {
            Operator::Plus => left.checked_add(right).ok_or(Complaint::Overflow),
            Operator::Minus => left.checked_sub(right).ok_or(Complaint::Overflow),
            Operator::Times => left.checked_mul(right).ok_or(Complaint::Overflow),
            Operator::Divide if right != 0 => left.checked_div(right).ok_or(Complaint::Overflow),
            Operator::Remainder if right != 0 => Ok(left.wrapping_rem(right)),
            Operator::Divide | Operator::Remainder => Err(Complaint::DivisionByZero),
        }
    }
}

/// Returns the negation of a number.
///
/// # Errors
/// `Overflow` where it does not fit.
pub fn negate(number: i64) -> Result<i64, Complaint>
    ensures ok { IfOk result (λ x. in_range (neg_ℤ number) ≡ Some x) }
    ensures err { OnErr result (in_range (neg_ℤ number) ≡ None) }
    ensures complaint { IfErr result (λ c. c ≡ Complaint.Overflow) }
{
    number.checked_neg().ok_or(Complaint::Overflow)
}

//! Why a line has no value.
ghost use Rattle.std.specs.Prelude.{◌≡◌};
ghost use Rattle.console.specs.declared.arithmetic.complaint.Complaint.TheVariants.{Memory};

use std::alloc::{AllocError, AllocFailed};

/// Why a line has no value.
#[derive(Clone, Copy)]
pub enum Complaint {
    /// A number, a name or `(` should stand there.
    ExpectedOperand,
    /// An operator or the end should stand there.
    ExpectedOperator,
    /// `)` should stand there.
    ExpectedClosing,
    /// The number is above `i64::MAX`.
    TooLarge,
    /// The name has no value.
    NoValue,
    /// The right side of `/` or `%` is zero.
    DivisionByZero,
    /// A result does not fit an `i64`.
    Overflow,
    /// Brackets and signs are nested deeper than `MOST_NESTED`.
    TooDeep,
    /// An allocation failed.
    Memory,
}

impl Complaint {
    /// Returns the complaint in words.
    pub fn message(self) -> &'static str {
        match self {
            Complaint::ExpectedOperand => "expected a number, a name or (",
            Complaint::ExpectedOperator => "expected an operator or the end",
            Complaint::ExpectedClosing => "expected )",
            Complaint::TooLarge => "the number is too large",
            Complaint::NoValue => "this name has no value",
            Complaint::DivisionByZero => "division by zero",
            Complaint::Overflow => "the result does not fit 64 bits",
            Complaint::TooDeep => "brackets are nested too deeply",
            Complaint::Memory => "out of memory",
        }
    }
}

/// A complaint, and the place in the text that it is about.
#[derive(Clone, Copy)]
pub struct Refusal {
    /// What is wrong.
    pub complaint: Complaint,
    /// The byte of the text at which the token at fault begins.
    pub at: usize,
}

impl From<AllocError> for Refusal {
    ghost from_gives = { λ _ r. r ≡ record { complaint = Memory; at = 0 } };

    fn from(_refused: AllocError) -> Refusal {
        Refusal {
            complaint: Complaint::Memory,
            at: 0,
        }
    }
}

impl<T: Drop> From<AllocFailed<T>> for Refusal {
    ghost from_gives = { λ _ r. r ≡ record { complaint = Memory; at = 0 } };

    fn from(_refused: AllocFailed<T>) -> Refusal {
        Refusal {
            complaint: Complaint::Memory,
            at: 0,
        }
    }
}

//! The bytes that are codes of kinds, comparisons, functions and flags.
ghost use Rattle.std.specs.Prelude.{◌≡◌, ℕ, Option};
ghost use Rattle.event_codec.specs.Codes.{flag_code, cmp_code, fun_code};
ghost use Rattle.event_codec.specs.Reading.{flag_of, cmp_of, fun_of, kind_of, op_kind_of};

use crate::kinds::{Kind, OpKind};
use ts_num::Fun;
use ts_schema::Cmp;

/// A value whose code is one byte.
pub trait Coded: Copy {
    /// The value with this code, if there is one.
    ghost meaning: { ℕ → Option Self };

    /// The value with this code, if there is one.
    fn of_code(byte: u8) -> Option<Self>
        ensures { result ≡ meaning byte };
}

impl Coded for bool {
    ghost meaning = { flag_of };

    fn of_code(byte: u8) -> Option<bool> {
        match byte {
            0 => Some(false),
            1 => Some(true),
            _ => None,
        }
    }
}

impl Coded for Cmp {
    ghost meaning = { cmp_of };

    fn of_code(byte: u8) -> Option<Cmp> {
        match byte {
            1 => Some(Cmp::Eq),
            2 => Some(Cmp::Ne),
            3 => Some(Cmp::Lt),
            4 => Some(Cmp::Le),
            5 => Some(Cmp::Gt),
            6 => Some(Cmp::Ge),
            7 => Some(Cmp::IsNull),
            8 => Some(Cmp::NotNull),
            _ => None,
        }
    }
}

impl Coded for Fun {
    ghost meaning = { fun_of };

    fn of_code(byte: u8) -> Option<Fun> {
        match byte {
            1 => Some(Fun::CountAll),
            2 => Some(Fun::Count),
            3 => Some(Fun::Sum),
            4 => Some(Fun::Min),
            5 => Some(Fun::Max),
            6 => Some(Fun::Avg),
            _ => None,
        }
    }
}

impl Coded for Kind {
    ghost meaning = { kind_of };

    fn of_code(byte: u8) -> Option<Kind> {
        match byte {
            1 => Some(Kind::Table),
            2 => Some(Kind::Hyper),
            3 => Some(Kind::View),
            4 => Some(Kind::Mode),
            5 => Some(Kind::Commit),
            6 => Some(Kind::Cut),
            7 => Some(Kind::Built),
            _ => None,
        }
    }
}

impl Coded for OpKind {
    ghost meaning = { op_kind_of };

    fn of_code(byte: u8) -> Option<OpKind> {
        match byte {
            1 => Some(OpKind::Insert),
            2 => Some(OpKind::Delete),
            _ => None,
        }
    }
}

/// The code of a flag.
pub fn flag_byte(flag: bool) -> u8
    ensures { result ≡ flag_code flag }
{
    match flag {
        false => 0,
        true => 1,
    }
}

/// The code of a comparison.
pub fn cmp_byte(cmp: Cmp) -> u8
    ensures { result ≡ cmp_code cmp }
{
    match cmp {
        Cmp::Eq => 1,
        Cmp::Ne => 2,
        Cmp::Lt => 3,
        Cmp::Le => 4,
        Cmp::Gt => 5,
        Cmp::Ge => 6,
        Cmp::IsNull => 7,
        Cmp::NotNull => 8,
    }
}

/// The code of a function.
pub fn fun_byte(fun: Fun) -> u8
    ensures { result ≡ fun_code fun }
{
    match fun {
        Fun::CountAll => 1,
        Fun::Count => 2,
        Fun::Sum => 3,
        Fun::Min => 4,
        Fun::Max => 5,
        Fun::Avg => 6,
    }
}

ghost use Rattle.std.specs.Prelude.{◌≡◌};
ghost use Rattle.aseba_compile.specs.Checking.{check_refusal};
ghost use Rattle.aseba_compile.specs.Coding.{code_refusal, expand_refusal};
ghost use Rattle.aseba_compile.specs.Reading.{lex_refusal, syntax_refusal};
ghost use Rattle.aseba_compile.specs.declared.refusal.Refusal.TheVariants.{Mem as OutOfMemory};

use aseba_check::CheckError;
use aseba_codegen::GenError;
use aseba_expand::ExpandError;
use aseba_lexer::LexError;
use aseba_parser::SyntaxError;
use aseba_words::Mem;

/// Why a source isn't compiled.
#[derive(Clone, Copy, Debug, PartialEq, Eq)]
pub enum Refusal {
    /// Its bytes are no tokens. Want of memory is a refusal of its own and never stands here.
    Lex(LexError),
    /// Its tokens are no program. Want of memory never stands here either.
    Syntax(SyntaxError),
    /// Its tree isn't sound in the project. Want of memory never stands here either.
    Check(CheckError),
    /// It is sound, and needs more cells than the node has. Want of memory never stands here either.
    Expand(ExpandError),
    /// It is sound, and needs more words or stack cells than the node has. Want of memory never
    /// stands here either.
    Gen(GenError),
    /// Memory didn't suffice.
    Mem,
}

impl From<Mem> for Refusal {
    ghost from_gives = { λ _ e. e ≡ OutOfMemory };

    fn from(_error: Mem) -> Refusal {
        Refusal::Mem
    }
}

impl From<LexError> for Refusal {
    ghost from_gives = { λ error e. e ≡ lex_refusal error };

    fn from(error: LexError) -> Refusal {
        match error {
            LexError::Mem => Refusal::Mem,
            LexError::BadByte { .. } | LexError::BadNumber { .. } | LexError::OpenComment { .. } =>
                { Refusal::Lex(error) }
        }
    }
}

impl From<SyntaxError> for Refusal {
    ghost from_gives = { λ error e. e ≡ syntax_refusal error };

    fn from(error: SyntaxError) -> Refusal {
        match error {
            SyntaxError::Mem => Refusal::Mem,
            SyntaxError::Syntax { .. } | SyntaxError::TooDeep { .. } => Refusal::Syntax(error),
        }
    }
}

impl From<CheckError> for Refusal {
    ghost from_gives = { λ error e. e ≡ check_refusal error };

    fn from(error: CheckError) -> Refusal {
        match error {
            CheckError::Mem => Refusal::Mem,
            CheckError::Unknown { .. }
            | CheckError::Duplicate { .. }
            | CheckError::NotConstant { .. }
            | CheckError::ConstantDivision { .. }
            | CheckError::ZeroStep { .. }
            | CheckError::BadSize { .. }
            | CheckError::IndexOut { .. }
            | CheckError::NotScalar { .. }
            | CheckError::EventSize { .. }
            | CheckError::ArgCount { .. }
            | CheckError::Recursion { .. }
            | CheckError::VariablesFull { .. }
            | CheckError::SubroutineFar { .. } => Refusal::Check(error),
        }
    }
}

impl From<ExpandError> for Refusal {
    ghost from_gives = { λ error e. e ≡ expand_refusal error };

    fn from(error: ExpandError) -> Refusal {
        match error {
            ExpandError::Mem => Refusal::Mem,
            ExpandError::VariablesFull { .. } => Refusal::Expand(error),
        }
    }
}

impl From<GenError> for Refusal {
    ghost from_gives = { λ error e. e ≡ code_refusal error };

    fn from(error: GenError) -> Refusal {
        match error {
            GenError::Mem => Refusal::Mem,
            GenError::CodeFull { .. } | GenError::StackFull { .. } => Refusal::Gen(error),
        }
    }
}

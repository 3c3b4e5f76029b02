// What single tokens mean to the readers of operators and atoms.
ghost use Rattle.std.specs.Prelude.{◌≡◌};
ghost use Rattle.language.specs.Grammar.{prefixes, constants, ranges};
ghost use Rattle.phrases.specs.Parts.{in_table};
ghost use Rattle.language.proofs.Executable.Climbing.{tightness as TIGHTNESS, after as AFTER};

use language::kinds;

// How tightly the operators of each level bind, the loosest first. Comparisons do not chain: what may
// follow one binds looser than it, so that there is a number between it and `&&`. They are numbers, not an enum, since
// they are reckoned with: a right operand begins at the next one.
pub const LEVEL_OR: u32 = 1;

pub const LEVEL_AND: u32 = 2;

pub const BEHIND_COMPARISON: u32 = 3;

pub const COMPARISON: u32 = 4;

pub const LEVEL_SUM: u32 = 5;

pub const LEVEL_PROD: u32 = 6;

// Tighter than every operator: a Un.
pub const OPERAND: u32 = 7;

// How tightly a token of kind k binds what stands around it; 0, looser than every level, where it is no operator.
#[tactic(auto, unfolding(language::specs::Tokens::entry, language::proofs::Executable::Climbing::tightness))]
pub fn tightness(k: u32) -> u32
    ensures { result ≡ TIGHTNESS k }
{
    match k {
        kinds::OR => LEVEL_OR,
        kinds::AND => LEVEL_AND,
        kinds::LESS | kinds::EQUAL => COMPARISON,
        kinds::PLUS | kinds::MINUS => LEVEL_SUM,
        kinds::STAR | kinds::SLASH => LEVEL_PROD,
        _ => 0,
    }
}

// The tightest operator that may follow one that binds as tightly as p.
pub fn after(p: u32) -> u32
    ensures { result ≡ AFTER p }
{
    if p == COMPARISON {
        BEHIND_COMPARISON
    } else {
        p
    }
}

// Does a token of kind k stand before its operand?
#[tactic(auto, unfolding(language::specs::Tokens::entry))]
pub fn is_prefix(k: u32) -> bool
    ensures { result ≡ in_table prefixes k }
{
    matches!(k, kinds::MINUS | kinds::NOT | kinds::BANG | kinds::REF)
}

// Is it `true`, `false` or `tt`?
#[tactic(auto, unfolding(language::specs::Tokens::entry))]
pub fn is_constant(k: u32) -> bool
    ensures { result ≡ in_table constants k }
{
    matches!(k, kinds::TRUE | kinds::FALSE | kinds::TT)
}

// Is it `..` or `..=`?
#[tactic(auto, unfolding(language::specs::Tokens::entry))]
pub fn is_range(k: u32) -> bool
    ensures { result ≡ in_table ranges k }
{
    matches!(k, kinds::UPTO | kinds::THROUGH)
}

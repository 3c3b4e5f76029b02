// The table of numbers, for the code: why a text does not split, why a reading has no type, why nothing
// is run and why a run stops, and the number of each. `specs/Meanings.antt` says which case of the written
// language each case here stands for.
#![tactic(auto)]

ghost use Rattle.std.specs.Prelude.{◌≡◌};
ghost use Rattle.language.specs.Numbers.{flaw_number, reason_number, refusal_number, stop_number};
ghost use Rattle.numbers.specs.Meanings.{flaw_meant, reason_meant, refusal_meant, stop_meant};

// What stops the split of a text, with its number.
#[derive(Clone, Copy)]
pub enum Flaw {
    StrangeByte = 11,
    OpenComment = 12,
    LargeNumber = 13,
    LongFloat = 15,
    ManyTokens = 14,
}

// Why a reading has no type.
#[derive(Clone, Copy)]
pub enum Reason {
    NoBinding,
    NoFunction,
    WrongNumber,
    WrongArgument,
    WrongOperand,
    WrongOperands,
    NotUnit,
    NotBool,
    NotInt,
    BranchesDiffer,
    WrongBody,
    TooManyRefs,
    TooManyFunctions,
    TooManyParameters,
    FunctionTwice,
    ParameterTwice,
}

// Why nothing is run or written, in the order in which it is looked for.
#[derive(Clone, Copy)]
pub enum Refusal {
    ShortMemory,
    LargeAllowance,
    NoEdition,
    LongSource,
    Text(Flaw),
    NoReading,
    Types(Reason),
    // What would be written is too long.
    LongText,
    // A line or the count of a stored sheet is wrong.
    NotHexadecimal,
    WrongCount,
    NotOneToken,
    // A pay sheet may go on without end, or may use too many units.
    EndlessNode,
    ManyUnits,
}

// Why a run stops before it has a value, with its number.
#[derive(Clone, Copy)]
pub enum Stop {
    NoUnit = 50,
    TooDeep = 51,
    OutOfRange = 52,
    ZeroDivisor = 53,
    CellFreed = 54,
    CellsFull = 55,
    NotAByte = 56,
    OutputFull = 57,
    ZeroStep = 58,
}

// Why something is not done or stops, and where that is told.
#[derive(Clone, Copy)]
pub struct Located<Y, P> {
    pub why: Y,
    pub place: P,
}

pub fn of_flaw(flaw: Flaw) -> u32
    ensures { result ≡ flaw_number (flaw_meant flaw) }
{
    flaw as u32
}

pub fn of_reason(reason: Reason) -> u32
    ensures { result ≡ reason_number (reason_meant reason) }
{
    match reason {
        Reason::TooManyFunctions | Reason::TooManyParameters => 30,
        Reason::FunctionTwice => 31,
        Reason::ParameterTwice => 32,
        Reason::WrongArgument
        | Reason::WrongOperand
        | Reason::WrongOperands
        | Reason::NotUnit
        | Reason::NotBool
        | Reason::NotInt
        | Reason::BranchesDiffer
        | Reason::WrongBody => 33,
        Reason::TooManyRefs => 34,
        Reason::NoBinding => 35,
        Reason::NoFunction => 36,
        Reason::WrongNumber => 37,
    }
}

pub fn of_refusal(refusal: Refusal) -> u32
    ensures { result ≡ refusal_number (refusal_meant refusal) }
{
    match refusal {
        Refusal::ShortMemory => 40,
        Refusal::LargeAllowance => 41,
        Refusal::NoEdition => 42,
        Refusal::LongSource => 10,
        Refusal::Text(flaw) => of_flaw(flaw),
        Refusal::NoReading => 20,
        Refusal::Types(reason) => of_reason(reason),
        Refusal::LongText => 44,
        Refusal::NotHexadecimal => 60,
        Refusal::WrongCount => 61,
        Refusal::NotOneToken => 62,
        Refusal::EndlessNode => 43,
        Refusal::ManyUnits => 45,
    }
}

pub fn of_stop(stop: Stop) -> u32
    ensures { result ≡ stop_number (stop_meant stop) }
{
    stop as u32
}

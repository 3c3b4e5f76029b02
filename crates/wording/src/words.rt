// Why a sheet does not pay, in words.
ghost use Rattle.std.specs.Prelude.{◌≡◌};
ghost use Rattle.page.specs.Text.{Writes};
ghost use Rattle.wording.specs.Words.{flaw_words, reason_words, refusal_words, stop_words};
ghost use Rattle.wording.specs.Words.{pay_words, called_words, wage_words, cause_words};

use crate::causes::Cause;
use crate::types;
use numbers::{Flaw, Reason, Refusal, Stop};
use page::Page;

#[tactic(auto, unfolding(crate::specs::Words::flaw_words))]
fn flaw(why: Flaw) -> &'static [u8]
    ensures { result.now ≡ flaw_words why }
{
    match why {
        Flaw::StrangeByte => b"a byte that begins no token",
        Flaw::OpenComment => b"a comment that is never closed",
        Flaw::LargeNumber => b"a number over 2147483647",
        Flaw::ManyTokens => b"more than 1360 tokens",
        Flaw::LongFloat => b"a number with a point and more than 15 digits",
    }
}

#[tactic(auto, unfolding(crate::specs::Words::reason_words))]
fn reason(why: Reason) -> &'static [u8]
    ensures { result.now ≡ reason_words why }
{
    match why {
        Reason::TooManyFunctions => b"more than 32 functions",
        Reason::TooManyParameters => b"more than 8 parameters",
        Reason::FunctionTwice => b"a function of this name is there already",
        Reason::ParameterTwice => b"a parameter of this name is there already",
        Reason::NoBinding => b"no variable of this name is in sight",
        Reason::NoFunction => b"no function of this name is in sight",
        Reason::WrongNumber => b"the function takes another number of arguments",
        Reason::WrongArgument => b"the function takes an argument of another type",
        Reason::WrongOperand => b"the operator takes an operand of another type",
        Reason::WrongOperands => b"the operator takes operands of other types",
        Reason::NotUnit => b"what stands before ; or in a loop has to be unit",
        Reason::NotBool => b"the condition has to be a bool",
        Reason::NotInt => b"start, end and step have to be ints",
        Reason::BranchesDiffer => b"then and else have different types",
        Reason::WrongBody => b"the body has another type than the function says",
        Reason::TooManyRefs => b"a type with more than 15 ref",
    }
}

#[tactic(auto, unfolding(crate::specs::Words::refusal_words))]
fn refusal(why: Refusal) -> &'static [u8]
    ensures { result.now ≡ refusal_words why }
{
    match why {
        Refusal::ShortMemory => b"a memory is too short",
        Refusal::LargeAllowance => b"the allowance is over 1000000",
        Refusal::NoEdition => b"the edition is neither 1 nor 2",
        Refusal::LongSource => b"the sheet has more than 49152 bytes",
        Refusal::Text(why) => flaw(why),
        Refusal::NoReading => b"not a program: nothing that could follow stands here",
        Refusal::Types(why) => reason(why),
        Refusal::LongText => b"what would be written is longer than the room for it",
        Refusal::NotHexadecimal => b"not a whole line of hexadecimal digits",
        Refusal::WrongCount => b"the count is not that of the lines under it",
        Refusal::NotOneToken => b"the line is not exactly one token",
        Refusal::EndlessNode => b"a pay sheet has no loop and no function that calls itself",
        Refusal::ManyUnits => b"the sheet may use more than 1000000 units",
    }
}

// What is wrong with `pay`, where the box refuses the call of it.
#[tactic(auto, unfolding(crate::specs::Words::pay_words))]
fn pay(why: Reason) -> &'static [u8]
    ensures { result.now ≡ pay_words why }
{
    match why {
        Reason::NoFunction => b"the sheet has no function pay",
        Reason::WrongNumber => b"pay does not take two arguments",
        Reason::WrongArgument => b"pay does not take two ints",
        _ => b"pay cannot be called",
    }
}

// Why the box refuses the call under a sheet.
#[tactic(auto, unfolding(crate::specs::Words::called_words))]
fn called(why: Refusal) -> &'static [u8]
    ensures { result.now ≡ called_words why }
{
    match why {
        Refusal::LongSource => b"with its call the sheet has more than 49152 bytes",
        Refusal::Text(_) => b"with its call the sheet has more than 1360 tokens",
        Refusal::NoReading =>
            b"with its call the sheet is no program: its last function may not be finished",
        Refusal::Types(why) => pay(why),
        _ => refusal(why),
    }
}

#[tactic(auto, unfolding(crate::specs::Words::stop_words))]
fn stop(why: Stop) -> &'static [u8]
    ensures { result.now ≡ stop_words why }
{
    match why {
        Stop::NoUnit => b"stopped: the allowance is used up",
        Stop::TooDeep => b"stopped: too deep, 512 nodes are at work",
        Stop::OutOfRange => b"stopped: a result does not fit 32 bits",
        Stop::ZeroDivisor => b"stopped: a division by zero",
        Stop::CellFreed => b"stopped: a cell is used after its block ended",
        Stop::CellsFull => b"stopped: all 1024 cells are in use",
        Stop::NotAByte => b"stopped: putchar takes 0 to 255",
        Stop::OutputFull => b"stopped: the output is full, it holds 65536 bytes",
        Stop::ZeroStep => b"stopped: a counted loop with a step of zero",
    }
}

fn no_wage(page: &mut Page, type_number: u32)
    ensures { Writes (wage_words type_number) page.old page.new }
{
    page.put(b"pay gives ");
    types::name(page, type_number);
    page.put(b", and a wage is an int");
}

// Puts it in words.
#[tactic(auto, unfolding(crate::specs::Words::cause_words))]
pub fn words(page: &mut Page, why: Cause)
    ensures { Writes (cause_words why) page.old page.new }
{
    match why {
        Cause::Refused(why) => page.put(refusal(why)),
        Cause::Called(why) => page.put(called(why)),
        Cause::Stopped(why) => page.put(stop(why)),
        Cause::Complete => page.put(
            b"the sheet is whole already: slip run and slip check --whole take it as it stands",
        ),
        Cause::NoWage(type_number) => no_wage(page, type_number),
        Cause::NoBook => page.put(
            b"no function pay from two ints to int, or something outside the functions",
        ),
        Cause::ManyLines => page.put(b"more than 65536 lines; the report is of the first 65536"),
    }
}

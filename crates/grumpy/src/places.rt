// Answers for the joined text, told of the two sheets.
ghost use Rattle.std.specs.Prelude.{◌≡◌};
ghost use Rattle.language.specs.Numbers.{refused};
ghost use Rattle.language.proofs.Answers.Pairs.{moved, check_moved, run_moved};
ghost use Rattle.language.proofs.Profiles.TwoSheets.{profile_moved};
ghost use Rattle.numbers.specs.Meanings.{refusal_meant};
ghost use Rattle.pairs.specs.Spots.{meant};
ghost use Rattle.grumpy.specs.Reports.{checked_report, ran_report, pair_checked_report, pair_ran_report};
ghost use Rattle.grumpy.specs.Reports.{profiled_report, pair_profiled_report};

use crate::answers::{Checked, Ended, Profiled, Ran};
use numbers::Refusal;
use pairs::Spot;
use sheets::Refused;

// Where a refusal is told; some have no place.
fn spot_of(first: &[u8], second: &[u8], why: Refusal, place: usize) -> Spot
    ensures { meant result ≡ moved first.now second.now (refused (refusal_meant why)) place }
{
    match why {
        Refusal::ShortMemory
        | Refusal::LargeAllowance
        | Refusal::NoEdition
        | Refusal::LongSource
        | Refusal::LongText
        | Refusal::ManyUnits => pairs::front(),
        Refusal::Text(_)
        | Refusal::NoReading
        | Refusal::Types(_)
        | Refusal::NotHexadecimal
        | Refusal::WrongCount
        | Refusal::NotOneToken
        | Refusal::EndlessNode => pairs::spot_at(first, second, place),
    }
}

// A refusal, told of the two sheets.
fn refused(first: &[u8], second: &[u8], r: Refused<usize>) -> Refused<Spot>
    ensures same_why { result.why ≡ r.why }
    ensures moved_place { meant result.place ≡ moved first.now second.now (refused (refusal_meant r.why)) r.place }
{
    Refused {
        why: r.why,
        place: spot_of(first, second, r.why, r.place),
    }
}

pub fn checked(first: &[u8], second: &[u8], answer: Checked<usize>) -> Checked<Spot>
    ensures { pair_checked_report result ≡ check_moved first.now second.now (checked_report answer) }
{
    answer.map_err(|r| refused(first, second, r))
}

pub fn profiled(first: &[u8], second: &[u8], answer: Profiled<usize>) -> Profiled<Spot>
    ensures { pair_profiled_report result ≡ profile_moved first.now second.now
        (profiled_report answer) }
{
    answer.map_err(|r| refused(first, second, r))
}

pub fn ran(first: &[u8], second: &[u8], answer: Ran<usize>) -> Ran<Spot>
    ensures { pair_ran_report result ≡ run_moved first.now second.now (ran_report answer) }
{
    match answer {
        Ok(ended) => Ok(Ended {
            type_number: ended.type_number,
            ending: ended
                .ending
                .told_at(|place| pairs::spot_at(first, second, place)),
        }),
        Err(r) => Err(refused(first, second, r)),
    }
}

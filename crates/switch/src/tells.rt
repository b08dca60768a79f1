// Answers as a host sees them: the number is returned, and the fields are set through the pointers, to zeros where a call is refused.
ghost use Rattle.std.specs.Prelude.{◌≡◌, MatchResult};
ghost use Rattle.model.specs.Link as link;
ghost use Rattle.model.specs.Lists as lists;
ghost use Rattle.answers.specs.Numbers.{number};
ghost use Rattle.answers.specs.Answers.{found_of, report_of};
ghost use Rattle.judge.specs.Verdicts.{heard_of};
ghost use Rattle.ledger.specs.Parts.{code, reply_of};

use answers::{Fault, Refusal, Report};
use judge::Heard;
use ledger::faults;

// What was found, if anything was.
pub fn tell_found(answer: Result<Option<u32>, Refusal>, found: &mut u32, value: &mut u32) -> u32
    ensures { found_of answer ≡ record { number = result; found = found.new; value = value.new } }
{
    *found = 0;
    *value = 0;
    match answer {
        Ok(Some(there)) => {
            *found = 1;
            *value = there;
            0
        }
        Ok(None) => 0,
        Err(refusal) => refusal.number(),
    }
}

// One field, which is `zero` where the call is refused.
pub fn tell_field<T: Drop>(answer: Result<T, Refusal>, zero: T, field: &mut T) -> u32
    ensures { MatchResult answer (λ x. (result ≡ 0) × (field.new ≡ x)) (λ r. (result ≡ number r) × (field.new ≡ zero)) }
{
    match answer {
        Ok(x) => {
            *field = x;
            0
        }
        Err(refusal) => {
            *field = zero;
            refusal.number()
        }
    }
}

pub fn tell_report(answer: Result<Report, Refusal>, written: &mut u32, total: &mut u32) -> u32
    ensures { report_of answer ≡ record { number = result; written = written.new; total = total.new } }
{
    *written = 0;
    *total = 0;
    match answer {
        Ok(report) => {
            *written = report.written;
            *total = report.total;
            0
        }
        Err(refusal) => refusal.number(),
    }
}

pub fn tell_heard(
    answer: Result<Heard, Fault>,
    repeat: &mut u32,
    missing: &mut u32,
    place: &mut u32,
) -> u32
    ensures { heard_of answer ≡ record { number = result; again = repeat.new; missing = missing.new; place = place.new } }
{
    *repeat = 0;
    *missing = 0;
    *place = 0;
    match answer {
        Ok(heard) => {
            *repeat = heard.again as u32;
            *missing = heard.missing;
            0
        }
        Err(fault) => {
            *place = fault.place();
            fault.number()
        }
    }
}

// The number of a ledger's operation that answers nothing else. Of the table's calls `answers::code` gives it: one function for both would be a trait of two impls.
pub fn tell_done(answer: Result<(), faults::Fault>) -> u32
    ensures { result ≡ code answer }
{
    match answer {
        Ok(()) => 0,
        Err(fault) => fault.number(),
    }
}

pub fn tell_reply(answer: Result<(), faults::Fault>, table: &mut u32) -> u32
    ensures { reply_of answer ≡ record { number = result; table = table.new } }
{
    match answer {
        Ok(()) => {
            *table = 0;
            0
        }
        Err(fault) => {
            *table = fault.table();
            fault.number()
        }
    }
}

//! The answers of a queue as codes and numbers.
ghost use Rattle.std.specs.Prelude.{◌≡◌};
ghost use Rattle.cc_passes.specs.Results.{sent_as, closed_as, taken_as};

use crate::items::ItemForm;
use crate::return_codes::{ACCEPTED, ALREADY, CLOSED, EMPTY, ENDED, FULL, GOT, SHUT, SPENT};
use cc_model::{CloseAnswer, SendAnswer, TakeAnswer};

/// The code of this answer of a send. A send that was accepted writes its place.
#[inline(always)]
pub(crate) fn sent_as(answer: SendAnswer, place: &mut u64) -> u32
    requires { place.old ≡ 0 }
    ensures { (served : _) → sent_as answer served ≡ record { code = result; number = place.new; served = served } }
{
    match answer {
        SendAnswer::Accepted { place: accepted } => {
            *place = accepted;
            ACCEPTED
        }
        SendAnswer::Full => FULL,
        SendAnswer::Closed => CLOSED,
        SendAnswer::Spent => SPENT,
    }
}

/// The code of this answer of a close, which writes the total.
#[inline(always)]
pub(crate) fn closed_as(answer: CloseAnswer, total: &mut u64) -> u32
    ensures { (served : _) → closed_as answer served ≡ record { code = result; number = total.new; served = served } }
{
    let (code, all) = match answer {
        CloseAnswer::Shut { total } => (SHUT, total),
        CloseAnswer::Already { total } => (ALREADY, total),
    };
    *total = all;
    code
}

/// The code of this answer of a take. It writes the item, or the total if the queue has ended.
#[inline(always)]
pub(crate) fn taken_as<I: ItemForm>(answer: TakeAnswer, item: &mut I, total: &mut u64) -> u32
    requires { (item.old ≡ I.form.none) × (total.old ≡ 0) }
    ensures { (served : _) → taken_as I.form answer served ≡ record { code = result; item = item.new; total = total.new; served = served } }
{
    match answer {
        TakeAnswer::Got(got) => {
            *item = I::of(got);
            GOT
        }
        TakeAnswer::Empty => EMPTY,
        TakeAnswer::Ended { total: all } => {
            *total = all;
            ENDED
        }
    }
}

// Refusals in words.
#![tactic(auto, unfolding(crate::specs::Refusals::lead_of, crate::specs::Refusals::refusal_text, crate::specs::Refusals::no_session_text, crate::specs::Refusals::no_studio_text, crate::specs::Refusals::no_edit_text, crate::specs::Refusals::retired_edit_text, crate::specs::Refusals::ahead_text, crate::specs::Refusals::at_operation_text))]

ghost use Rattle.std.specs.Prelude.{◌≡◌, ◌<◌, ◌≤◌, length, MatchOption};
ghost use Rattle.carts.specs.Refusal.{refusal_number};
ghost use Rattle.refusals.specs.Sentences.{refusal_sentence};
ghost use Rattle.refusals.specs.Refusals.{lead_of, refusal_text, no_session_text, no_studio_text, no_edit_text, retired_edit_text, ahead_text, at_operation_text};

use carts::refusal::Refusal;
use words::page::Page;

// What a refusal means.
#[tactic(auto, unfolding(crate::specs::Sentences::refusal_sentence))]
fn sentence(refusal: Refusal) -> &'static [u8]
    ensures text { result.now ≡ refusal_sentence (refusal_number refusal) }
    ensures fits { length result.now ≤ 128 }
{
    match refusal {
        Refusal::Length => b"a memory has another length",
        Refusal::Layout => b"there is no system yet, or its memory is not of the layout",
        Refusal::NoSuchPlace => b"no such session or studio",
        Refusal::ReadWaits => b"a read of this session is waiting; collect it first",
        Refusal::OperationCount => b"a commit has one to eight operations",
        Refusal::OperationForm =>
            b"an operation is out of form: cart 1 to 128, title of 1 to 64 letters, audio and length at least 1",
        Refusal::NoRoom =>
            b"the log has no room for these operations until edits are retired, or all 65,535 edit numbers are used",
        Refusal::WrongState =>
            b"an operation meets its cart in the wrong state: new asks for an empty cart, the others for a held one",
        Refusal::AllSent => b"every edit has been sent to this studio",
        Refusal::WindowFull => b"32 edits have been sent to this studio and not applied",
        Refusal::AllApplied => b"this studio has applied all that was sent to it",
        Refusal::RequestForm =>
            b"the request is out of form: 1 to 32 carts from 1 to 128, or a title of 1 to 64 letters",
        Refusal::ShortOutput => b"the output has no room for the carts asked for",
        Refusal::NothingWaits => b"no read of this session is waiting",
        Refusal::SetupForm => b"a system has 1 to 4 studios, and each session one of them or 0",
        Refusal::SpacedTitle => b"the title begins or ends with a space",
        Refusal::NoMessage =>
            b"there is no such edit, or a message or the van's copy is out of form",
        Refusal::NotNext => b"the van has not applied the edit before this one",
        Refusal::OtherCopy =>
            b"a copy is not what the log's edits make, or an operation in the log met its cart in the wrong state",
        Refusal::NotRetirable =>
            b"the log has no edit to retire, or a studio has not applied the oldest one; refresh that studio first",
        Refusal::RetiredEdit => b"the edit is retired, and its message can no longer be written",
        // of the converter, which no line calls
        Refusal::FileForm | Refusal::LongTitle => b"unknown",
    }
}

// The refusal of a number, none where no row has it.
fn refusal_of(n: u32) -> Option<Refusal>
    ensures { MatchOption result (1 ≤ n → 23 < n) (λ refusal. n ≡ refusal_number refusal) }
{
    match n {
        1 => Some(Refusal::Length),
        2 => Some(Refusal::Layout),
        3 => Some(Refusal::NoSuchPlace),
        4 => Some(Refusal::ReadWaits),
        5 => Some(Refusal::OperationCount),
        6 => Some(Refusal::OperationForm),
        7 => Some(Refusal::NoRoom),
        8 => Some(Refusal::WrongState),
        9 => Some(Refusal::AllSent),
        10 => Some(Refusal::WindowFull),
        11 => Some(Refusal::AllApplied),
        12 => Some(Refusal::RequestForm),
        13 => Some(Refusal::ShortOutput),
        14 => Some(Refusal::NothingWaits),
        15 => Some(Refusal::SetupForm),
        16 => Some(Refusal::SpacedTitle),
        17 => Some(Refusal::NoMessage),
        18 => Some(Refusal::NotNext),
        19 => Some(Refusal::OtherCopy),
        20 => Some(Refusal::NotRetirable),
        21 => Some(Refusal::RetiredEdit),
        22 => Some(Refusal::FileForm),
        23 => Some(Refusal::LongTitle),
        _ => None,
    }
}

// What the refusal of a number means; of a number that no row has, it is not known.
#[tactic(auto, using(crate::proofs::RefusalLaws::no_row))]
fn sentence_of(n: u32) -> &'static [u8]
    ensures text { result.now ≡ refusal_sentence n }
    ensures fits { length result.now ≤ 128 }
{
    match refusal_of(n) {
        Some(refusal) => sentence(refusal),
        None => b"unknown",
    }
}

// A page that begins as the refusal of a preview does, or of any other call. A flag: the texts differ in this alone.
fn begun(page: &mut Page, previews: bool)
    ensures { page.new ≡ lead_of previews }
{
    page.clear();
    if previews {
        page.put(b"  would be ");
    } else {
        page.put(b"  ");
    }
}

// A refusal by its number, and what it means; it is that of a preview, or of any other call.
pub fn refusal(page: &mut Page, previews: bool, n: u32)
    ensures { page.new ≡ refusal_text previews n }
{
    begun(page, previews);
    page.put_between(b"refused (", n, b"): ");
    page.put(sentence_of(n));
    page.put(b"\n");
}

// Refusal 3 of a call that names a session.
pub fn no_session(page: &mut Page, previews: bool, session: u32)
    ensures { page.new ≡ no_session_text previews session }
{
    begun(page, previews);
    page.put_between(
        b"refused (3): there is no session ",
        session,
        b", or it is unused\n",
    );
}

// Refusal 3 of a call that names a studio.
pub fn no_studio(page: &mut Page, studio: u32)
    ensures { page.new ≡ no_studio_text studio }
{
    page.clear();
    page.put_between(b"  refused (3): there is no studio ", studio, b"\n");
}

// Refusal 17 of an edit whose message cannot be written.
pub fn no_edit(page: &mut Page, edit: u32)
    ensures { page.new ≡ no_edit_text edit }
{
    page.clear();
    page.put_between(b"  refused (17): there is no edit ", edit, b"\n");
}

// Refusal 21 of a retired edit, whose message cannot be written.
pub fn retired_edit(page: &mut Page, edit: u32)
    ensures { page.new ≡ retired_edit_text edit }
{
    page.clear();
    page.put_between(
        b"  refused (21): edit ",
        edit,
        b" is retired, and its message can no longer be written\n",
    );
}

// Refusal 18 of the message of an edit, by a van that has applied so many.
pub fn ahead(page: &mut Page, applied: u32, edit: u32)
    ensures { page.new ≡ ahead_text applied edit }
{
    page.clear();
    page.put_counted(b"  refused (18): the van has applied ", applied, b"edit");
    page.put_between(b", and edit ", edit, b" is not the next\n");
}

// The operation for which a commit is refused, counted from 1, and its cart.
pub fn at_operation(page: &mut Page, i: u32, cart: u32)
    ensures { page.new ≡ at_operation_text i cart }
{
    page.clear();
    page.put_numbered(b"    it is operation ", i);
    page.put_between(b" of the commit, on cart ", cart, b"\n");
}

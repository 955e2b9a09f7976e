//! The texts of answers.

ghost use Rattle.std.specs.Prelude.{◌≡◌, ◌++◌, codes};
ghost use Rattle.io_model.specs.Sink.{Puts};
ghost use Rattle.client_top.specs.Answers.{row_of};
ghost use Rattle.client_top.specs.Texts.{about_words, about_now, not_installed};

use crate::status::{Good, NotNow, Status};
use client_words::UsageFault;
use flow_table::Outcome;
use io_model::{Line, Sink, SinkFault};

/// The number of a fault in the words, and the index of the word.
#[tactic(auto, unfolding(crate::specs::Texts::about_words))]
fn usage(fault: UsageFault) -> Line
    ensures { result ≡ codes "usage " ++ about_words fault ++ codes "\n" }
{
    match fault {
        UsageFault::NoCommand => Line::named(b"usage ", b"1"),
        UsageFault::UnknownCommand(word) => Line::numbered(b"usage 2 ", u64::from(word)),
        UsageFault::MissingWord => Line::named(b"usage ", b"3"),
        UsageFault::ExtraWord(word) => Line::numbered(b"usage 4 ", u64::from(word)),
        UsageFault::BadNumber(word) => Line::numbered(b"usage 5 ", u64::from(word)),
    }
}

#[tactic(auto, unfolding(crate::specs::Texts::about_now))]
fn wait(when: NotNow) -> Line
    ensures { result ≡ codes "not now " ++ about_now when ++ codes "\n" }
{
    match when {
        NotNow::InProgress(state) => Line::named(b"not now 1 ", state.name().as_bytes()),
        NotNow::MustResume(state) => Line::named(b"not now 2 ", state.name().as_bytes()),
        NotNow::NoRollback(state) => Line::named(b"not now 3 ", state.name().as_bytes()),
    }
}

#[tactic(auto, unfolding(crate::specs::Texts::not_installed))]
fn not_installed(outcome: Outcome) -> &'static [u8]
    ensures { result.now ≡ codes "not installed: " ++ not_installed outcome ++ codes "\n" }
{
    match outcome {
        Outcome::RolledBack => b"not installed: rolled back\n",
        _ => b"not installed: kept\n",
    }
}

/// Writes the text of an answer that shows nothing.
pub(crate) fn tell<O: Sink>(out: &mut O, status: &Status) -> Result<(), SinkFault>
    ensures { Puts (O.means out.old) (row_of status.now).text result (O.means out.new) }
{
    match status {
        Status::Done(Good::Committed) => out.put(b"committed\n"),
        Status::Done(Good::Waiting) => out.put(b"waiting\n"),
        Status::Done(Good::RolledBack) => out.put(b"rolled back\n"),
        Status::Done(Good::Shown) => Ok(()),
        Status::Done(Good::Admitted) => out.put(b"admitted\n"),
        Status::Done(Good::Simulated) => Ok(()),
        Status::Refused(refusal) => out.put(refusal.line().bytes()),
        Status::NoUpdate => out.put(b"no update\n"),
        Status::Inconsistent => out.put(b"inconsistent\n"),
        Status::RebootNeeded => out.put(b"reboot needed\n"),
        Status::DiskFault => out.put(b"disk fault\n"),
        Status::SourceFault => out.put(b"source fault\n"),
        Status::NoMemory => out.put(b"no memory\n"),
        Status::SinkFault => Ok(()),
        Status::Usage(fault) => out.put(usage(*fault).bytes()),
        Status::PowerOff => Ok(()),
        Status::BadStore(offset) => out.put(Line::numbered(
            b"bad store ",
            u64::from(*offset),
        ).bytes()),
        Status::TooLarge(bytes) => out.put(Line::numbered(b"too large ", *bytes).bytes()),
        Status::NotNow(when) => out.put(wait(*when).bytes()),
        Status::NotInstalled(outcome) => out.put(not_installed(*outcome)),
    }
}

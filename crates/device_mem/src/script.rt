//! What a device in memory is set up to do.

ghost use Rattle.std.specs.Prelude.{◌≡◌};
ghost use Rattle.device_mem.specs.Script.{is_cut, answer_at, as_exit, answer_of, reply_of, reply_to, support_of};

use device_model::{Answer, Query};
use upd_text::{CallList, ListOf, Text32};

/// What a loss of power leaves of a byte that wasn't synced: the one of the last sync, the new one, or this one.
#[derive(Clone, Copy, Debug, PartialEq, Eq)]
pub enum Tear {
    Old,
    New,
    Byte(u8),
}

/// A loss of power at the call with this number, before its effect or after it.
#[derive(Clone, Copy, Debug, PartialEq, Eq)]
pub struct LossAt {
    pub call: u64,
    pub before: bool,
    pub tear: Tear,
}

/// How children end, in the order of their starts.
pub type AnswerList = ListOf<Answer>;

/// Losses of power. Of several at one call the first counts.
pub type LossList = ListOf<LossAt>;

/// What happens to a device in memory. Its calls and the children that it starts are counted from 0, over all boots.
#[derive(Drop)]
pub struct Script {
    /// How the children end that aren't asked. After the last answer each exits 0.
    pub answers: AnswerList,
    /// The reply to each question whether a rollback is supported that `others` has no reply to.
    pub supports: Answer,
    /// The reply to each question whether a reboot is needed.
    pub needs: Answer,
    /// The replies of payloads 1, 2 and so on to the question whether a rollback is supported.
    pub others: AnswerList,
    /// Where power is lost.
    pub losses: LossList,
    /// The children that lose their power.
    pub cuts: CallList,
    /// The calls of the disk and of the work folder that fail.
    pub faults: CallList,
    /// Whether each child empties the work folder.
    pub meddle: bool,
}

/// A script, and how far it was taken when power came on last: so many answers, children and losses.
#[derive(Drop)]
pub struct Plan {
    pub script: Script,
    pub taken: u32,
    pub started: u64,
    pub losses: u64,
}

pub(crate) fn is_cut_at(script: &Script, started: u64) -> bool
    ensures { result ≡ is_cut script.now started }
{
    script.cuts.as_slice().contains(&started)
}

/// How a child ends that isn't asked.
#[derive(Clone, Copy, Debug, PartialEq, Eq)]
pub(crate) enum Ending {
    Exit(u8),
    NotStarted,
}

/// The end of the child that takes the answer with this number.
pub(crate) fn ending_at(script: &Script, taken: u32) -> Ending
    ensures { answer_of result ≡ as_exit (answer_at script.now taken) }
{
    match script.answers.as_slice().get(taken as usize) {
        Some(answer) => match answer {
            Answer::Exit(code) => Ending::Exit(*code),
            Answer::Reply(code, _) => Ending::Exit(*code),
            Answer::NotStarted => Ending::NotStarted,
        },
        None => Ending::Exit(0),
    }
}

/// How a question ends.
#[derive(Drop)]
pub(crate) enum Replying {
    Reply(u8, Text32),
    NotStarted,
}

/// Whether this payload supports a rollback.
fn support_of(script: &Script, payload: u8) -> &Answer
    ensures { result.now ≡ support_of script.now payload }
{
    if payload == 0 {
        return &script.supports;
    }
    match script.others.as_slice().get(usize::from(payload) - 1) {
        Some(answer) => answer,
        None => &script.supports,
    }
}

pub(crate) fn reply_for(script: &Script, payload: u8, query: Query) -> Replying
    ensures { reply_of result ≡ reply_to script.now payload query }
{
    let answer = match query {
        Query::SupportsRollback => support_of(script, payload),
        Query::NeedsArtifactReboot => &script.needs,
    };
    match answer {
        Answer::Exit(code) => Replying::Reply(*code, Text32::cut(b"")),
        Answer::Reply(code, text) => Replying::Reply(*code, text.twin()),
        Answer::NotStarted => Replying::NotStarted,
    }
}

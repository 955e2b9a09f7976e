//! What a seed draws for each round.

ghost use Rattle.std.specs.Prelude.{◌≡◌, ◌+◌, ◌≤◌, ◌<◌, zero, length, map, All, IfOk, OnOk};
ghost use Rattle.lab.specs.Draws.{stepped, drawn, after, draws, answer_of, supports_reply, needs_reply, round_of, next_round};

use device_mem::{AnswerList, LossList, Script};
use device_model::Answer;
use std::alloc::Global;
use upd_text::{CallList, ListOf, NoMemory, Text32};

/// What one round is made of.
#[derive(Drop)]
pub struct Round {
    /// The lengths of the payload files, at most four.
    pub lengths: ListOf<u64>,
    /// How children end, and which of them lose their power.
    pub script: Script,
}

/// Draws numbers, one from the other.
#[derive(Clone, Copy, Debug, PartialEq, Eq)]
pub struct Generator {
    /// The number from which the next one is drawn.
    pub state: u64,
}

impl Generator {
    /// A generator that begins with this number.
    pub fn new(seed: u64) -> Generator
        ensures { result.state ≡ seed }
    {
        Generator { state: seed }
    }

    /// The next number below `k`.
    pub fn draw(&mut self, k: u64) -> u64
        requires { 0 < k }
        ensures value { result ≡ drawn k self.old.state }
        ensures state { self.new.state ≡ stepped self.old.state }
        ensures below { result < k }
    {
        self.state = self
            .state
            .wrapping_mul(6_364_136_223_846_793_005)
            .wrapping_add(1_442_695_040_888_963_407);
        (self.state >> 33) % k
    }

    /// So many numbers below `k`.
    fn draw_numbers(&mut self, alloc: Global, k: u64, count: u64) -> Result<ListOf<u64>, NoMemory>
        requires { 0 < k }
        ensures values { IfOk result (λ l. l ≡ draws k count self.old.state) }
        ensures state { OnOk result (self.new.state ≡ after count self.old.state) }
    {
        let mut numbers = ListOf::new(alloc);
        for _i in 0..count {
            numbers.push(self.draw(k))?;
        }
        Ok(numbers)
    }

    /// How the first twelve children end: each fails once in eight times.
    fn draw_answers(&mut self, alloc: Global) -> Result<AnswerList, NoMemory>
        ensures values { IfOk result (λ l. l ≡ map answer_of (draws 8 12 self.old.state)) }
        ensures state { OnOk result (self.new.state ≡ after 12 self.old.state) }
    {
        let mut answers = AnswerList::new(alloc);
        for _i in 0..12u64 {
            answers.push(answer_of(self.draw(8)))?;
        }
        Ok(answers)
    }

    /// The next round.
    pub fn draw_round(&mut self, alloc: Global) -> Result<Round, NoMemory>
        ensures round { IfOk result (λ r. r ≡ round_of self.old.state) }
        ensures few { IfOk result (λ r. length r.lengths ≤ 4) }
        ensures short { IfOk result (λ r. All (λ n. n < 2000) r.lengths) }
        ensures state { OnOk result (self.new.state ≡ next_round self.old.state) }
    {
        let files = self.draw(4) + 1;
        let lengths = self.draw_numbers(alloc, 2_000, files)?;
        let supports = supports_reply(self.draw(2));
        let needs = needs_reply(self.draw(3));
        let answers = self.draw_answers(alloc)?;
        let cuts = self.draw(4);
        let cuts = self.draw_numbers(alloc, 12, cuts)?;
        Ok(Round {
            lengths,
            script: Script {
                answers,
                supports,
                needs,
                others: AnswerList::new(alloc),
                losses: LossList::new(alloc),
                cuts,
                faults: CallList::new(alloc),
                meddle: false,
            },
        })
    }
}

/// A child fails where 0 is drawn for it.
fn answer_of(number: u64) -> Answer
    ensures { result ≡ answer_of number }
{
    if number == 0 {
        Answer::Exit(1)
    } else {
        Answer::Exit(0)
    }
}

/// Whether a rollback is supported.
fn supports_reply(number: u64) -> Answer
    ensures { result ≡ supports_reply number }
{
    if number == 0 {
        Answer::Reply(0, Text32::cut(b"No"))
    } else {
        Answer::Reply(0, Text32::cut(b"Yes"))
    }
}

/// Whether a reboot is needed, and who makes it.
fn needs_reply(number: u64) -> Answer
    ensures { result ≡ needs_reply number }
{
    match number {
        0 => Answer::Reply(0, Text32::cut(b"No")),
        1 => Answer::Reply(0, Text32::cut(b"Yes")),
        _ => Answer::Reply(0, Text32::cut(b"Automatic")),
    }
}

//! The lines of the application or of a visitor, and their answers.

ghost use Rattle.std.specs.Prelude.{◌≡◌, length, IfErr, IfOk, IfSome, None, Ok, Some};
ghost use Rattle.std.specs.Option.{option_map};
ghost use Rattle.std.specs.Result.{result_ok};
ghost use Rattle.device_session.specs.Asking as spec;
ghost use Rattle.device_session.specs.Asking.{AnswersEachLine, ContinuesLines, EndsWithClosing, IsAnswerKept};
ghost use Rattle.device_session.specs.Lines.{kind_of_line};
ghost use Rattle.device_session.specs.Questions.{call_in, called, question_in, question_of};
ghost use Rattle.device_session.specs.Seats.{after_choosing};

use crate::asked::{Asked, LineKind, call_of, line_kind, read_asked};
use crate::incoming::NextLine;
use crate::seats::Seats;
use app_lines::{Found, LONGEST, Names};
use arrayvec::ArrayVec;
use host_api::{App, AppFault};
use std::alloc::AllocError;
use std::marker::Model;

/// While more bytes of answers wait for a save, no further line is executed before it.
const MOST_ANSWERS: usize = 4_096;

/// Why a connection is closed after the answer to its line.
#[derive(Clone, Copy, PartialEq, Eq)]
pub(crate) enum Closing {
    /// It stays.
    No,
    LineTooLong,
    /// For example the request of a web browser: what follows is not read.
    FirstLineWrong,
}

/// The line that waits for its answer.
#[derive(Clone, Copy)]
pub(crate) enum Unanswered {
    Nothing,
    /// The last line, after the answer to its call.
    Line(Result<(), AppFault>),
    TooLong,
    /// The answer to the last line is put off.
    Later,
}

/// The last line, and the answers that wait for a save.
#[derive(Drop)]
pub(crate) struct Asking {
    line: ArrayVec<u8, LONGEST>,
    unanswered: Unanswered,
    closing: Closing,
    /// The answers, or refused memory.
    answers: Option<Result<Vec<u8>, AllocError>>,
}

impl Model for Asking {
    ghost use Rattle.std.specs.Option.{option_map};
    ghost use Rattle.std.specs.Result.{result_ok};
    ghost use Rattle.device_session.specs.Asking as spec;

    ghost Value = { spec.Asking };

    ghost view = { λ asking. record {
      line = asking.line.items;
      unanswered = asking.unanswered;
      closing = asking.closing;
      answers = option_map (λ answers. option_map (λ text. text.items) (result_ok answers))
          asking.answers;
    } };

    // The laws hold of it: it became what it is by the steps that they speak of.
    ghost invariant = { λ asking. spec.IsReached (record {
      line = asking.line.items;
      unanswered = asking.unanswered;
      closing = asking.closing;
      answers = option_map (λ answers. option_map (λ text. text.items) (result_ok answers))
          asking.answers;
    }) };
}

impl Asking {
    #[tactic(auto, using(crate::proofs::Exchanges::answers_each_line, crate::proofs::Exchanges::ends_with_closing, crate::proofs::Steps::at_first))]
    pub(crate) fn nothing() -> Asking
        ensures nothing { result ≡ spec.nothing_asked }
        // After any calls, in any order: each line gets one answer. The answers that are sent next
        // are those since the last reply, in order.
        ensures lines { AnswersEachLine }
        // After a line that closes its connection, none is taken before its answer is sent, and
        // its connection is closed then.
        ensures closes { EndsWithClosing }
        // After octets or the time, no line is taken before the reply: a turn has lines or events
        // of others, never both.
        ensures continues { ContinuesLines }
    {
        Asking {
            line: ArrayVec::new(),
            unanswered: Unanswered::Nothing,
            closing: Closing::No,
            answers: None,
        }
    }

    /// Reads the next line and returns the call of the host that it makes, if any. Reads none while
    /// a line waits for its answer, or an answer waits.
    ///
    /// `time` is in milliseconds. The value lies in a prefix of `buffer`. A line that names no
    /// connection is refused without a call.
    pub(crate) fn next_call<'a>(
        &mut self,
        seats: &mut Seats,
        names: &Names,
        time: u64,
        buffer: &'a mut [u8],
    ) -> Option<App<'a>>
        ensures seats { seats.new ≡ spec.seats_if (spec.may_begin self.old)
            (after_choosing seats.old time) seats.old }
        ensures call { option_map called result ≡ spec.call_made (spec.call_if
            (spec.may_begin self.old) (after_choosing seats.old time) self.old
            names.now.named time (length buffer.old)) }
        ensures asked { self.new ≡ spec.asked_if (spec.may_begin self.old)
            (after_choosing seats.old time) self.old
            names.now.named time (length buffer.old) }
    {
        if !self.may_begin() {
            return None;
        }
        let next = seats.next_line(&mut self.line, time);
        let line = self.line.as_slice();
        take(next, line, &mut self.unanswered, &mut self.closing);
        call(line, &mut self.unanswered, names, time, buffer)
    }

    /// Reads the next line of the sender of the last one, as `next_call` does. Reads none unless it
    /// `may_continue`.
    pub(crate) fn next_call_of_asker<'a>(
        &mut self,
        seats: &mut Seats,
        names: &Names,
        time: u64,
        buffer: &'a mut [u8],
    ) -> Option<App<'a>>
        ensures seats { seats.new ≡ spec.seats_if
            (spec.may_continue self.old) seats.old seats.old }
        ensures call { option_map called result ≡ spec.call_made (spec.call_if
            (spec.may_continue self.old) seats.old self.old
            names.now.named time (length buffer.old)) }
        ensures asked { self.new ≡ spec.asked_if (spec.may_continue self.old)
            seats.old self.old names.now.named time (length buffer.old) }
    {
        if !self.may_continue() {
            return None;
        }
        let next = seats.next_line_of_asker(&mut self.line);
        let line = self.line.as_slice();
        take(next, line, &mut self.unanswered, &mut self.closing);
        call(line, &mut self.unanswered, names, time, buffer)
    }

    /// Stores the answer to the call of the line that waits.
    #[tactic(auto, using(crate::proofs::Steps::by_call))]
    pub(crate) fn answered(&mut self, answer: Result<(), AppFault>)
        ensures { self.new ≡ spec.after_call answer self.old }
    {
        answer_call(&mut self.unanswered, answer);
    }

    /// Returns the answer to the call of the line that waits.
    pub(crate) fn answer(&self) -> Result<(), AppFault>
        ensures { result ≡ spec.answer_in self.now.unanswered }
    {
        match self.unanswered {
            Unanswered::Line(answer) => answer,
            Unanswered::Nothing | Unanswered::TooLong | Unanswered::Later => Ok(()),
        }
    }

    pub(crate) fn asked(&self) -> Asked<'_>
        ensures { question_of result ≡ question_in self.now.unanswered self.now.line }
    {
        asked_in(self.unanswered, self.line.as_slice())
    }

    fn is_waiting(&self) -> bool
        ensures { result ≡ spec.is_waiting self.now }
    {
        !matches!(self.unanswered, Unanswered::Nothing)
    }

    /// Puts off the answer to the line that waits.
    #[tactic(auto, using(crate::proofs::Steps::by_delay))]
    pub(crate) fn put_off(&mut self)
        ensures { self.new ≡ spec.after_delay self.old }
    {
        if self.is_waiting() {
            self.unanswered = Unanswered::Later;
        }
    }

    /// Stores the answer to the line that waits, to be sent after the save. Stores none if no line
    /// waits.
    pub(crate) fn keep_answer(&mut self, text: Result<Vec<u8>, AllocError>)
        ensures kept { IfOk text (λ text. IsAnswerKept (Some text.items) self.old self.new) }
        ensures refused { IfErr text (λ _. self.new ≡ spec.with_answer None self.old) }
    {
        if !self.is_waiting() {
            return;
        }
        self.unanswered = Unanswered::Nothing;
        self.answers = Some(match self.answers.take() {
            Some(answers) => joined(answers, text),
            None => text,
        });
    }

    /// Returns true if the next line may be executed: none waits, and neither does an answer.
    fn may_begin(&self) -> bool
        ensures { result ≡ spec.may_begin self.now }
    {
        !self.is_waiting() && self.answers.is_none()
    }

    /// Returns true if another line may be executed before the save, after the answer to one.
    pub(crate) fn may_continue(&self) -> bool
        ensures { result ≡ spec.may_continue self.now }
    {
        !self.is_waiting() && self.closing == Closing::No && are_few(&self.answers)
    }

    /// Removes the answers that wait, and returns them, with why the connection is closed then. It
    /// is not closed before the answer to a line that still waits.
    #[tactic(auto, using(crate::proofs::Steps::by_reply))]
    pub(crate) fn take_reply(&mut self) -> Option<(Result<Vec<u8>, AllocError>, Closing)>
        ensures answers { option_map (λ reply. option_map (λ text. text.items)
            (result_ok reply.0)) result ≡ self.old.answers }
        ensures closing { IfSome result (λ reply. reply.1 ≡ spec.closing_now self.old) }
        ensures taken { self.new ≡ spec.replied self.old }
    {
        let answers = self.answers.take()?;
        let closing = match self.unanswered {
            Unanswered::Nothing => std::mem::replace(&mut self.closing, Closing::No),
            Unanswered::Line(_) | Unanswered::TooLong | Unanswered::Later => Closing::No,
        };
        Some((answers, closing))
    }
}

/// Stores a line that was just read. Changes nothing if none was.
fn take(next: NextLine, line: &[u8], unanswered: &mut Unanswered, closing: &mut Closing)
    ensures unanswered { unanswered.new
        ≡ spec.unanswered_after next.found unanswered.old }
    ensures closing { closing.new
        ≡ spec.closing_after next.found next.is_first line.now closing.old }
{
    match next.found {
        Found::Nothing => {}
        Found::TooLong => {
            *unanswered = Unanswered::TooLong;
            *closing = Closing::LineTooLong;
        }
        Found::Line => {
            *unanswered = Unanswered::Line(Ok(()));
            *closing = if next.is_first && is_wrong(line) {
                Closing::FirstLineWrong
            } else {
                Closing::No
            };
        }
    }
}

/// Returns the call of the host that a line makes, if any. Refuses one that names no connection.
fn call<'a>(
    line: &[u8],
    unanswered: &mut Unanswered,
    names: &Names,
    time: u64,
    buffer: &'a mut [u8],
) -> Option<App<'a>>
    ensures call { option_map called result ≡ spec.call_made (call_in
        (question_in unanswered.old line.now) names.now.named time (length buffer.old)) }
    ensures refused { unanswered.new ≡ spec.refused_with (call_in
        (question_in unanswered.old line.now) names.now.named time (length buffer.old))
        unanswered.old }
{
    let call = match asked_in(*unanswered, line) {
        Asked::Command(command) => call_of(&command, names, time, buffer),
        _ => Ok(None),
    };
    match call {
        Ok(call) => call,
        Err(fault) => {
            answer_call(unanswered, Err(fault));
            None
        }
    }
}

/// Stores the answer to the call of a line.
fn answer_call(unanswered: &mut Unanswered, answer: Result<(), AppFault>)
    ensures { unanswered.new ≡ spec.called_with answer unanswered.old }
{
    if let Unanswered::Line(_) = *unanswered {
        *unanswered = Unanswered::Line(answer);
    }
}

/// Returns what the last line asks, if it waits and its answer is not put off.
fn asked_in(unanswered: Unanswered, line: &[u8]) -> Asked<'_>
    ensures { question_of result ≡ question_in unanswered line.now }
{
    match unanswered {
        Unanswered::Line(_) => read_asked(line),
        Unanswered::TooLong => Asked::TooLong,
        Unanswered::Nothing | Unanswered::Later => Asked::Nothing,
    }
}

/// Returns answers with one more.
fn joined(
    answers: Result<Vec<u8>, AllocError>,
    text: Result<Vec<u8>, AllocError>,
) -> Result<Vec<u8>, AllocError>
    ensures joined { IfOk result (λ all. Some all.items ≡ spec.appended
        (option_map (λ text. text.items) (result_ok answers))
        (option_map (λ text. text.items) (result_ok text))) }
    ensures refused { IfErr text (λ _. result_ok result ≡ None) }
{
    let mut all = answers?;
    let text = text?;
    all.extend_from_slice(text.as_slice())?;
    Ok(all)
}

fn are_few(answers: &Option<Result<Vec<u8>, AllocError>>) -> bool
    ensures { result ≡ spec.are_few (option_map (λ answers. option_map (λ text. text.items)
        (result_ok answers)) answers.now) }
{
    match answers {
        None => false,
        Some(Ok(answers)) => answers.len() <= MOST_ANSWERS,
        Some(Err(_)) => false,
    }
}

fn is_wrong(line: &[u8]) -> bool
    ensures { result ≡ spec.is_wrong_kind (kind_of_line line.now) }
{
    matches!(line_kind(line), LineKind::Wrong)
}

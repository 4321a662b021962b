// What comes after a line: whether another engine follows, and the line's answer. It relies on `host` for what became of the line.

ghost use Rattle.std.specs.Prelude.{◌≡◌, ◌≢◌, [], false, true, Err, IfOk, Ok};
ghost use Rattle.host_live.specs.Growth.{GrowsBy};
ghost use Rattle.host_live.specs.Served.{AnswersDecided, AnswersTurn, IsDecidedLine, IsDecidedTurn};
ghost use Rattle.host_live.specs.declared.answering.After.TheVariants.{End as AfterAll};
ghost use Rattle.host_live.specs.declared.answering.Turn.TheVariants.{End as AtEnd, Line as LineTurn};
ghost use Rattle.host_live.specs.declared.served.Served.TheVariants.{Asked};
ghost use Rattle.host_live.specs.declared.serving.LiveFault.TheVariants.{Unread, Unwritten};

use crate::host::Host;
use crate::manner::Manner;
use crate::outlet::Outlet;
use crate::reports::{Reports, fault_of};
use crate::request::Succession;
use crate::served::Served;
use crate::serving::LiveFault;
use std::alloc::AllocError;

/// What comes after what came.
#[derive(Clone, Copy, Debug, PartialEq, Eq)]
pub(crate) enum After {
    /// More may come.
    More,
    /// Nothing: the input is at its end, or a line asked to quit.
    End,
    /// Another engine follows this one.
    Asked,
}

/// What came, and what it led to.
#[derive(Clone, Copy)]
pub(crate) enum Turn {
    /// A line.
    Line(Served),
    /// A timer was due, or no whole line came as yet.
    Timer,
    /// The input is at its end.
    End,
}

/// Has it decided whether another engine follows, if the line that came asks for one, and answers the line.
pub(crate) fn answer_decided<S: Outlet, N: Reports>(
    host: &mut Host<'_>,
    manner: Manner,
    line: usize,
    turn: Turn,
    out: &mut S,
    reports: &mut N,
) -> Result<After, LiveFault>
    ensures grown { GrowsBy [] host.old.engine (S.bytes out.old) (S.failures out.old) host.new.engine (S.bytes out.new) (S.failures out.new) }
    ensures engine { host.new.engine.engine ≡ host.old.engine.engine }
    ensures answers { AnswersDecided manner line turn N.may_refuse (N.has_decided reports.new) host.old.engine.engine (S.answers out.old) result (S.answers out.new) host.new.engine.printed (S.bytes out.new) }
    ensures unread { result ≢ Err Unread }
    ensures ended { manner.is_told ≡ false → result ≡ Ok AfterAll → turn ≡ AtEnd }
    ensures unwritten { result ≡ Err Unwritten → host.new.engine.printed.has_failed ≡ true }
{
    match decide(host, line, turn, reports) {
        Ok(turn) => answer(host, manner, line, turn, out),
        Err(fault) => Err(stop(host, out, fault)),
    }
}

// Has it decided whether another engine follows, if the line of that number asks for one. If none follows, the line is refused.
fn decide<N: Reports>(
    host: &Host<'_>,
    line: usize,
    turn: Turn,
    reports: &mut N,
) -> Result<Turn, LiveFault>
    ensures decided { IfOk result (IsDecidedTurn turn N.may_refuse (N.has_decided reports.new) host.now.engine.engine) }
    ensures unread { result ≢ Err Unread }
    ensures written { result ≢ Err Unwritten }
{
    match turn {
        Turn::Line(served) => match decide_line(host, line, served, reports) {
            Ok(served) => Ok(Turn::Line(served)),
            Err(fault) => Err(fault),
        },
        Turn::Timer => Ok(Turn::Timer),
        Turn::End => Ok(Turn::End),
    }
}

// The same of what became of the line.
fn decide_line<N: Reports>(
    host: &Host<'_>,
    line: usize,
    served: Served,
    reports: &mut N,
) -> Result<Served, LiveFault>
    ensures decided { IfOk result (IsDecidedLine served N.may_refuse (N.has_decided reports.new) host.now.engine.engine) }
    ensures unread { result ≢ Err Unread }
    ensures written { result ≢ Err Unwritten }
{
    match served.asked() {
        Some(how) => ask(host, line, how, reports),
        None => Ok(served),
    }
}

// Asks whether another engine follows. If none does, that is reported.
fn ask<N: Reports>(
    host: &Host<'_>,
    line: usize,
    how: Succession,
    reports: &mut N,
) -> Result<Served, LiveFault>
    ensures decided { IfOk result (IsDecidedLine (Asked how) N.may_refuse (N.has_decided reports.new) host.now.engine.engine) }
    ensures unread { result ≢ Err Unread }
    ensures written { result ≢ Err Unwritten }
{
    match reports.follow(how, host.engine.engine()) {
        Ok(None) => Ok(Served::Asked(how)),
        Ok(Some(why)) => {
            let fault = fault_of(why);
            reports.refused(fault, line);
            Ok(Served::Refused(fault))
        }
        Err(AllocError) => Err(LiveFault::OutOfMemory),
    }
}

// Answers the line of that number, if it is a line that came. It returns what comes after it.
fn answer<S: Outlet>(
    host: &mut Host<'_>,
    manner: Manner,
    line: usize,
    turn: Turn,
    out: &mut S,
) -> Result<After, LiveFault>
    ensures grown { GrowsBy [] host.old.engine (S.bytes out.old) (S.failures out.old) host.new.engine (S.bytes out.new) (S.failures out.new) }
    ensures engine { host.new.engine.engine ≡ host.old.engine.engine }
    ensures answers { AnswersTurn manner line turn (S.answers out.old) result (S.answers out.new) host.new.engine.printed (S.bytes out.new) }
    ensures unread { result ≢ Err Unread }
    ensures ended { manner.is_told ≡ false → result ≡ Ok AfterAll → turn ≡ AtEnd }
    ensures unwritten { result ≡ Err Unwritten → host.new.engine.printed.has_failed ≡ true }
{
    match turn {
        Turn::Line(served) => answer_line(host, manner, line, served, out),
        Turn::Timer => Ok(After::More),
        Turn::End => Ok(After::End),
    }
}

// Answers the line of that number, if lines are answered, and it is not skipped, and does not ask for the engine that follows.
fn answer_line<S: Outlet>(
    host: &mut Host<'_>,
    manner: Manner,
    line: usize,
    served: Served,
    out: &mut S,
) -> Result<After, LiveFault>
    ensures grown { GrowsBy [] host.old.engine (S.bytes out.old) (S.failures out.old) host.new.engine (S.bytes out.new) (S.failures out.new) }
    ensures engine { host.new.engine.engine ≡ host.old.engine.engine }
    ensures answers { AnswersTurn manner line (LineTurn served) (S.answers out.old) result (S.answers out.new) host.new.engine.printed (S.bytes out.new) }
    ensures unread { result ≢ Err Unread }
    ensures more { manner.is_told ≡ false → result ≢ Ok AfterAll }
    ensures unwritten { result ≡ Err Unwritten → host.new.engine.printed.has_failed ≡ true }
{
    if served.asked().is_some() {
        return Ok(After::Asked);
    }
    if !manner.is_told || served.is_skipped() {
        return Ok(After::More);
    }
    match host.engine.answer(line, served.fault(), out) {
        Ok(()) => Ok(if served.is_last() {
            After::End
        } else {
            After::More
        }),
        Err(failed) => Err(LiveFault::from(failed)),
    }
}

/// Hands all on where the engine stops for that fault, or for the one that this meets.
pub(crate) fn stop<S: Outlet>(host: &mut Host<'_>, out: &mut S, fault: LiveFault) -> LiveFault
    requires written { fault ≢ Unwritten }
    ensures grown { GrowsBy [] host.old.engine (S.bytes out.old) (S.failures out.old) host.new.engine (S.bytes out.new) (S.failures out.new) }
    ensures engine { host.new.engine.engine ≡ host.old.engine.engine }
    ensures answers { S.answers out.new ≡ S.answers out.old }
    ensures unread { result ≡ Unread → fault ≡ Unread }
    ensures unwritten { result ≡ Unwritten → host.new.engine.printed.has_failed ≡ true }
{
    match host.engine.settle(out) {
        Ok(()) => fault,
        Err(failed) => LiveFault::from(failed),
    }
}

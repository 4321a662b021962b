// An outlet that is lent to what wants a sink, and answers nothing meanwhile. It relies on `outlet`, and on `trace` for what a sink is.

ghost use Rattle.std.specs.Prelude.{◌≡◌, ◌⊎◌, [], Option, Some, OnErr, OnOk};
ghost use Rattle.trace.specs.HasText.{HasText};
ghost use Rattle.trace.specs.Growing.{FailsBySink, Goes, PrintsOn, StopsIn};
ghost use Rattle.trace.specs.TraceText.{record_text, totals_text};

use crate::outlet::Outlet;
use std::marker::{Brand, PhantomData};
use trace::{Growing, Sink, WriteFailed};
use world_calls::{Record, Totals};

/// What takes bytes. Contracts see which one it is, the bytes that it took, how many writes failed, and what was answered.
trait Taker {
    ghost use Rattle.std.specs.Prelude.{◌≡◌, ◌≤◌, ℕ, List, Option, length};
    ghost use Rattle.trace.specs.Sinks.{Takes};
    ghost use Rattle.host_live.specs.Answering.{Answer};

    ghost name: { Self → ℕ };

    ghost bytes: { Self → Option (List ℕ) };

    ghost failures: { Self → ℕ };

    ghost answers: { Self → Option (List Answer) };

    fn take(&mut self, text: &[u8]) -> Result<usize, WriteFailed>
        requires { 1 ≤ length text.now }
        ensures taken { Takes text.now (bytes self.old) (failures self.old) result (bytes self.new) (failures self.new) }
        ensures name { name self.new ≡ name self.old }
        ensures answers { answers self.new ≡ answers self.old };
}

/// An outlet that is lent. Its name is that of the loan.
#[derive(Drop)]
struct Lending<'a, S: Outlet> {
    outlet: &'a mut S,
}

impl<S: Outlet> Lending<'_, S> {
    /// The outlet goes back as it is.
    fn end(self)
        ensures bytes { S.bytes self.exit.0.now ≡ S.bytes self.entry.outlet.now }
        ensures failures { S.failures self.exit.0.now ≡ S.failures self.entry.outlet.now }
        ensures answers { S.answers self.exit.0.now ≡ S.answers self.entry.outlet.now }
    {}
}

impl<S: Outlet> Taker for Lending<'_, S> {
    ghost name = { λ lending. lending.outlet.ghost_name };

    ghost bytes = { λ lending. S.bytes lending.outlet.now };

    ghost failures = { λ lending. S.failures lending.outlet.now };

    ghost answers = { λ lending. S.answers lending.outlet.now };

    fn take(&mut self, text: &[u8]) -> Result<usize, WriteFailed> {
        self.outlet.take(text)
    }
}

/// What stays so while bytes are taken. Whoever lends passes `Brand` to a function over this, and picks it there.
trait Kept {
    ghost use Rattle.std.specs.Prelude.{ℕ, List, Option};
    ghost use Rattle.host_live.specs.Answering.{Answer};

    ghost name: { ℕ };

    ghost answers: { Option (List Answer) };
}

impl Kept for Brand {
    ghost use Rattle.std.specs.Prelude.{None};

    ghost name = { 0 };

    ghost answers = { None };
}

/// What takes bytes, while these stay so.
struct Lent<M: Taker, K: Kept> {
    taker: M,
    of: PhantomData<K>,
    ghost name: { M.name taker ≡ K.name },
    ghost answers: { M.answers taker ≡ K.answers },
}

impl<M: Taker, K: Kept> Sink for Lent<M, K> {
    ghost bytes = { λ lent. M.bytes lent.taker };

    ghost failures = { λ lent. M.failures lent.taker };

    ghost origin = { λ _. 0 };

    fn write(&mut self, text: &[u8]) -> Result<usize, WriteFailed> {
        self.taker.take(text)
    }
}

// Prints the line of one record more on what is lent, which comes back.
fn print_lent<M: Taker, K: Kept>(
    lines: &mut Growing,
    entry: &Record,
    taker: M,
) -> (M, Result<(), WriteFailed>)
    requires spelled { HasText lines.old.version entry.now }
    requires name { M.name taker ≡ K.name }
    requires answers { M.answers taker ≡ K.answers }
    ensures text { PrintsOn (record_text lines.old.version entry.now) lines.old.waiting (M.bytes taker) result.1 lines.new.waiting (M.bytes result.0) }
    ensures stops { OnErr result.1 (StopsIn (Some []) lines.old.waiting (M.bytes taker) (M.bytes result.0)) }
    ensures failures { FailsBySink (M.failures taker) result.1 (M.failures result.0) }
    ensures version { lines.new.version ≡ lines.old.version }
    ensures name { M.name result.0 ≡ K.name }
    ensures answers { M.answers result.0 ≡ K.answers }
{
    let mut lent: Lent<M, K> = Lent {
        taker,
        of: PhantomData,
    };
    let result = lines.print_next(entry, &mut lent);
    let Lent { taker, of: _ } = lent;
    (taker, result)
}

// Prints the line of one record more on an outlet. The loan comes back.
fn print_lending<'d, S: Outlet>(
    lines: &mut Growing,
    entry: &Record,
    outlet: &'d mut S,
    printed: &mut Result<(), WriteFailed>,
) -> Lending<'d, S>
    requires spelled { HasText lines.old.version entry.now }
    ensures text { PrintsOn (record_text lines.old.version entry.now) lines.old.waiting (S.bytes outlet.old) printed.new lines.new.waiting (S.bytes result.outlet.now) }
    ensures stops { OnErr printed.new (StopsIn (Some []) lines.old.waiting (S.bytes outlet.old) (S.bytes result.outlet.now)) }
    ensures failures { FailsBySink (S.failures outlet.old) printed.new (S.failures result.outlet.now) }
    ensures version { lines.new.version ≡ lines.old.version }
    ensures same { result.outlet.ghost_name ≡ outlet.entry.ghost_name }
    ensures answers { S.answers result.outlet.now ≡ S.answers outlet.old }
{
    let (lending, result) = print_lent::<Lending<'d, S>, Brand>(lines, entry, Lending { outlet });
    *printed = result;
    lending
}

/// Prints the line of one record more. If it finds no room, what waits is handed on before. It reports a write that fails, and prints nothing then.
pub(crate) fn print_next<S: Outlet>(
    lines: &mut Growing,
    entry: &Record,
    out: &mut S,
) -> Result<(), WriteFailed>
    requires spelled { HasText lines.old.version entry.now }
    ensures text { PrintsOn (record_text lines.old.version entry.now) lines.old.waiting (S.bytes out.old) result lines.new.waiting (S.bytes out.new) }
    ensures stops { OnErr result (StopsIn (Some []) lines.old.waiting (S.bytes out.old) (S.bytes out.new)) }
    ensures failures { FailsBySink (S.failures out.old) result (S.failures out.new) }
    ensures version { lines.new.version ≡ lines.old.version }
    ensures answers { S.answers out.new ≡ S.answers out.old }
{
    let mut printed = Ok(());
    let lending = print_lending(lines, entry, out, &mut printed);
    lending.end();
    printed
}

// Hands on what waits to what is lent, which comes back.
fn hand_lent<M: Taker, K: Kept>(lines: &mut Growing, taker: M) -> (M, Result<(), WriteFailed>)
    requires name { M.name taker ≡ K.name }
    requires answers { M.answers taker ≡ K.answers }
    ensures text { PrintsOn (Some []) lines.old.waiting (M.bytes taker) result.1 lines.new.waiting (M.bytes result.0) }
    ensures failures { FailsBySink (M.failures taker) result.1 (M.failures result.0) }
    ensures all { OnOk result.1 (lines.new.waiting ≡ []) }
    ensures version { lines.new.version ≡ lines.old.version }
    ensures name { M.name result.0 ≡ K.name }
    ensures answers { M.answers result.0 ≡ K.answers }
{
    let mut lent: Lent<M, K> = Lent {
        taker,
        of: PhantomData,
    };
    let result = lines.hand_on(&mut lent);
    let Lent { taker, of: _ } = lent;
    (taker, result)
}

// Hands on what waits to an outlet. The loan comes back.
fn hand_lending<'d, S: Outlet>(
    lines: &mut Growing,
    outlet: &'d mut S,
    handed: &mut Result<(), WriteFailed>,
) -> Lending<'d, S>
    ensures text { PrintsOn (Some []) lines.old.waiting (S.bytes outlet.old) handed.new lines.new.waiting (S.bytes result.outlet.now) }
    ensures failures { FailsBySink (S.failures outlet.old) handed.new (S.failures result.outlet.now) }
    ensures all { OnOk handed.new (lines.new.waiting ≡ []) }
    ensures version { lines.new.version ≡ lines.old.version }
    ensures same { result.outlet.ghost_name ≡ outlet.entry.ghost_name }
    ensures answers { S.answers result.outlet.now ≡ S.answers outlet.old }
{
    let (lending, result) = hand_lent::<Lending<'d, S>, Brand>(lines, Lending { outlet });
    *handed = result;
    lending
}

/// Hands on what waits. It reports a write that fails.
pub(crate) fn hand_on<S: Outlet>(lines: &mut Growing, out: &mut S) -> Result<(), WriteFailed>
    ensures text { PrintsOn (Some []) lines.old.waiting (S.bytes out.old) result lines.new.waiting (S.bytes out.new) }
    ensures failures { FailsBySink (S.failures out.old) result (S.failures out.new) }
    ensures all { OnOk result (lines.new.waiting ≡ []) }
    ensures version { lines.new.version ≡ lines.old.version }
    ensures answers { S.answers out.new ≡ S.answers out.old }
{
    let mut handed = Ok(());
    let lending = hand_lending(lines, out, &mut handed);
    lending.end();
    handed
}

// Prints the last line on what is lent, which comes back.
fn end_lent<M: Taker, K: Kept>(
    lines: Growing,
    totals: Totals,
    taker: M,
) -> (M, Result<(), WriteFailed>)
    requires name { M.name taker ≡ K.name }
    requires answers { M.answers taker ≡ K.answers }
    ensures text { PrintsOn (totals_text totals) lines.waiting (M.bytes taker) result.1 [] (M.bytes result.0) }
    ensures stops { OnErr result.1 (StopsIn (Some []) lines.waiting (M.bytes taker) (M.bytes result.0) ⊎ StopsIn (totals_text totals) lines.waiting (M.bytes taker) (M.bytes result.0)) }
    ensures failures { FailsBySink (M.failures taker) result.1 (M.failures result.0) }
    ensures name { M.name result.0 ≡ K.name }
    ensures answers { M.answers result.0 ≡ K.answers }
{
    let mut lent: Lent<M, K> = Lent {
        taker,
        of: PhantomData,
    };
    let result = lines.end(totals, &mut lent);
    let Lent { taker, of: _ } = lent;
    (taker, result)
}

// Prints the last line on an outlet. The loan comes back.
fn end_lending<'d, S: Outlet>(
    lines: Growing,
    totals: Totals,
    outlet: &'d mut S,
    ended: &mut Result<(), WriteFailed>,
) -> Lending<'d, S>
    ensures text { PrintsOn (totals_text totals) lines.waiting (S.bytes outlet.old) ended.new [] (S.bytes result.outlet.now) }
    ensures stops { OnErr ended.new (StopsIn (Some []) lines.waiting (S.bytes outlet.old) (S.bytes result.outlet.now) ⊎ StopsIn (totals_text totals) lines.waiting (S.bytes outlet.old) (S.bytes result.outlet.now)) }
    ensures failures { FailsBySink (S.failures outlet.old) ended.new (S.failures result.outlet.now) }
    ensures same { result.outlet.ghost_name ≡ outlet.entry.ghost_name }
    ensures answers { S.answers result.outlet.now ≡ S.answers outlet.old }
{
    let (lending, result) = end_lent::<Lending<'d, S>, Brand>(lines, totals, Lending { outlet });
    *ended = result;
    lending
}

/// Prints the last line, and hands all on.
pub(crate) fn end<S: Outlet>(lines: Growing, totals: Totals, out: &mut S) -> Result<(), WriteFailed>
    ensures text { PrintsOn (totals_text totals) lines.waiting (S.bytes out.old) result [] (S.bytes out.new) }
    ensures stops { OnErr result (StopsIn (Some []) lines.waiting (S.bytes out.old) (S.bytes out.new) ⊎ StopsIn (totals_text totals) lines.waiting (S.bytes out.old) (S.bytes out.new)) }
    ensures failures { FailsBySink (S.failures out.old) result (S.failures out.new) }
    ensures answers { S.answers out.new ≡ S.answers out.old }
{
    let mut ended = Ok(());
    let lending = end_lending(lines, totals, out, &mut ended);
    lending.end();
    ended
}

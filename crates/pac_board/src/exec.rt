//! The calls that make steps, and offer what they give to a sink.

ghost use Rattle.std.specs.Prelude.{◌≡◌, ◌<◌, ◌≤◌, ◌+◌, ◌-◌, ◌*◌, ◌/◌, ◌^◌, [], None};
ghost use Rattle.std.specs.Prelude.{is_some, min, take};
ghost use Rattle.pac_machine.specs.Standing.{latest, nothing_due};
ghost use Rattle.pac_machine.specs.Bursts.{batch_samples};
ghost use Rattle.pac_board.specs.State.{due_outputs};
ghost use Rattle.pac_board.specs.Calls.{with_due};
ghost use Rattle.pac_board.specs.CallsLaws.{Offers, IsAdvanced, Advances, StepsOnce, Executes};
ghost use Rattle.pac_board.specs.CallsLaws.{once_of_board};
ghost use Rattle.pac_board.specs.CallsProofs.{StepsOn, stop_of_once};
ghost use Rattle.pac_board.specs.SinksLaws.{by};
ghost use Rattle.pac_board.specs.TurnsProofs.{Turns, IsShort, told_once};
ghost use Rattle.pac_board.specs.Turns.{GoesTo};
ghost use Rattle.pac_board.specs.Roads.{GoesUntil};
ghost use Rattle.pac_board.specs.RoadsProofs.{BoardPasses, BoardWatched};
ghost use Rattle.pac_board.specs.Stretches.{IsStretched, HasBatch, Stretches, IsTold};
ghost use Rattle.pac_board_model.specs.Step.{sample_ticks};

use crate::board::Board;
use crate::fault::{Fault, Idle};
use crate::offer::offer;
use crate::sink::{Refused, Sink};
use pac_cpu::{Once, StepKind, Stop};
use pac_machine::{BATCH_SAMPLES, Due, MOST_ASKED, SAMPLE_TICKS, Stops, Trail, Unwatched, Watch};
use std::mem::forget;

/// The time, in T-states, from which on no step is begun (this profile).
pub const LATEST: u64 = 1 << 52;

/// What a call for some microseconds came to.
#[derive(Clone, Copy)]
pub struct Ran {
    /// The T-states that went by.
    pub ticks: u64,
    /// Why it ended before its time, if it did.
    pub stop: Option<Stop>,
}

impl Board {
    /// Offers what is due to a sink, the sample before the picture. What it refuses stays due, with what comes after it.
    #[inline(always)]
    pub fn offer<S: Sink>(&mut self, sink: &mut S) -> Result<(), Refused>
        ensures { Offers (by S.took S.refused) self.old sink.old result self.new sink.new }
    {
        offer(&mut self.due, self.machine.picture(), sink)
    }

    /// Does one step, whose outputs are due then. Where outputs are due already, or the time is over, it does nothing.
    #[inline]
    pub fn advance(&mut self) -> Result<Once, Idle>
        ensures { Advances self.old result self.new }
    {
        if self.due.is_some() {
            return Err(Idle::OutputsDue);
        }
        if self.machine.time() >= LATEST {
            return Err(Idle::TimeIsOver);
        }
        let kind = self.machine.kind();
        let begun = self.time();
        let met = self.do_step();
        Ok(self.once_told(kind, begun, met))
    }

    /// What a step that began at a time came to, by its kind where it wasn't a stop.
    #[inline(always)]
    fn once_told(&self, kind: StepKind, begun: u64, met: Option<Stop>) -> Once
        requires { IsShort begun self.now.state.now.time }
        ensures { result ≡ told_once met (self.now.state.now.time - begun) kind }
    {
        match met {
            Some(stop) => Once::Stopped(stop),
            None => Once::Stepped {
                ticks: (self.time() - begun) as u8,
                kind,
            },
        }
    }

    /// Does the step of a board with nothing due and time left; what it gives is due then. Answers the stop, if one came: whoever asks for
    /// a step's kind finds it before.
    #[inline(always)]
    fn do_step(&mut self) -> Option<Stop>
        requires early { self.old.state.now.time < latest }
        requires nothing { due_outputs self.old ≡ [] }
        ensures done { IsAdvanced self.old (once_of_board self.old) self.new }
        ensures stop { result ≡ stop_of_once (once_of_board self.old) }
    {
        let mut met = None;
        self.go_on(&mut met);
        met
    }

    /// Does one step of a board with nothing due, and offers what it gives.
    #[inline(always)]
    fn turn<S: Sink>(&mut self, sink: &mut S) -> Result<Option<Stop>, Refused>
        requires early { self.old.state.now.time < latest }
        requires nothing { due_outputs self.old ≡ [] }
        ensures { Turns (by S.took S.refused) self.old sink.old result self.new sink.new }
    {
        let met = self.do_step();
        self.offer(sink)?;
        Ok(met)
    }

    /// Offers what steps gave, of a board with nothing due. It becomes due where it's refused alone, for it's taken nearly always.
    #[inline(always)]
    fn give<S: Sink>(&mut self, given: Due, sink: &mut S) -> Result<(), Refused>
        requires nothing { self.old.state.due ≡ nothing_due }
        ensures { Offers (by S.took S.refused) (with_due self.old given) sink.old
            result self.new sink.new }
    {
        let mut due = given;
        let offered = offer(&mut due, self.machine.picture(), sink);
        if offered.is_err() {
            self.due = due;
        }
        offered
    }

    /// Offers what is due, does one step, and offers what it gives.
    pub fn step_once<S: Sink>(&mut self, sink: &mut S) -> Result<Once, Fault>
        ensures { StepsOnce (by S.took S.refused) self.old sink.old result self.new sink.new }
    {
        let kind = self.machine.kind();
        let begun = self.time();
        match self.step_on(sink) {
            Ok(met) => Ok(self.once_told(kind, begun, met)),
            Err(fault) => Err(fault),
        }
    }

    /// Does what `step_once` does, for a caller that asks for a stop alone.
    #[inline(always)]
    pub fn step_on<S: Sink>(&mut self, sink: &mut S) -> Result<Option<Stop>, Fault>
        ensures { StepsOn (by S.took S.refused) self.old sink.old result self.new sink.new }
    {
        if self.time() >= LATEST {
            return Err(Fault::TooFar);
        }
        if self.offer(sink).is_err() {
            return Err(Fault::Refused);
        }
        match self.turn(sink) {
            Ok(met) => Ok(met),
            Err(_) => Err(Fault::Refused),
        }
    }

    /// Does steps of a board with nothing due up to a limit, or to a stop, or some of these; but the first, none that begins where it is to
    /// stop; and none after one that did something at a watched address. Answers whether a stop came, how many samples those before the last
    /// gave, and what the last gives, which isn't due yet. Each step is told.
    #[inline(always)]
    fn make_stretch<W: Watch>(
        &mut self,
        limit: u64,
        samples: &mut [i16; BATCH_SAMPLES],
        stops: &Stops<'_>,
        told: &mut Trail,
        watch: &mut W,
        met: &mut Option<Stop>,
    ) -> (bool, usize, Due)
        requires early { self.old.state.now.time < limit }
        requires limit { limit ≤ latest }
        requires nothing { due_outputs self.old ≡ [] }
        requires none { met.old ≡ None }
        requires unmet { W.met watch.old ≡ None }
        ensures made { HasBatch self.old limit met.new (take result.1 samples.new)
            (with_due self.new result.2) }
        ensures told { IsTold self.old limit self.new told.old told.new }
        ensures passes { BoardPasses stops.now self.old self.new }
        ensures watched { BoardWatched (W.marks watch.old) self.old self.new (W.met watch.new) }
        ensures marks { W.marks watch.new ≡ W.marks watch.old }
        ensures nothing { self.new.state.due ≡ nothing_due }
        ensures stopped { result.0 ≡ is_some met.new }
        ensures count { result.1 ≤ batch_samples }
        ensures before { sample_ticks * (self.old.state.now.time / sample_ticks + result.1)
            < limit }
    {
        self.machine
            .stretch(limit, samples, stops, told, watch, met)
    }

    /// A limit for a sink that has room for so many samples at once: the moment of the one after those at the latest.
    #[inline(always)]
    fn limit_for(&self, limit: u64, room: usize) -> u64
        requires early { self.now.state.now.time < limit }
        ensures later { self.now.state.now.time < result }
        ensures within { result ≤ limit }
        ensures room { result ≤ sample_ticks
            * (self.now.state.now.time / sample_ticks + min room batch_samples + 1) }
    {
        let many = self.time() / SAMPLE_TICKS + room.min(BATCH_SAMPLES) as u64;
        limit.min(SAMPLE_TICKS * (many + 1))
    }

    /// Does the next step of a board with nothing due, and what it gives is due then. It isn't told.
    #[inline(always)]
    fn go_on(&mut self, met: &mut Option<Stop>)
        requires early { self.old.state.now.time < latest }
        requires nothing { due_outputs self.old ≡ [] }
        requires none { met.old ≡ None }
        ensures made { IsStretched self.old (self.old.state.now.time + 1) met.new self.new }
        ensures bound { self.old.made < 2 ^ 64 }
    {
        self.due = self.machine.make_step(met);
    }

    /// Does steps, and offers what they give: the samples of those before the last at once, as many as the sink has room for.
    #[inline(always)]
    fn stretch<S: Sink, W: Watch>(
        &mut self,
        limit: u64,
        samples: &mut [i16; BATCH_SAMPLES],
        stops: &Stops<'_>,
        told: &mut Trail,
        watch: &mut W,
        sink: &mut S,
    ) -> Result<Option<Stop>, Refused>
        requires early { self.old.state.now.time < limit }
        requires limit { limit ≤ latest }
        requires nothing { due_outputs self.old ≡ [] }
        requires unmet { W.met watch.old ≡ None }
        ensures made { Stretches (by S.took S.refused) self.old limit sink.old
            result self.new sink.new }
        ensures told { IsTold self.old limit self.new told.old told.new }
        ensures passes { BoardPasses stops.now self.old self.new }
        ensures watched { BoardWatched (W.marks watch.old) self.old self.new (W.met watch.new) }
        ensures marks { W.marks watch.new ≡ W.marks watch.old }
    {
        let mut met = None;
        let near = self.limit_for(limit, S::room(sink));
        let (stopped, count, given) = self.make_stretch(
            near, samples, stops, told, watch, &mut met,
        );
        sink.samples(&samples[..count]);
        self.give(given, sink)?;
        if stopped {
            return Ok(met);
        }
        Ok(None)
    }

    /// Does steps while the time is before a limit, up to a stop, or before one that begins where it is to stop, unless it is the first, or
    /// up to one that did something at a watched address, and offers what each gives. Each step is told.
    #[inline(always)]
    fn run<S: Sink, W: Watch>(
        &mut self,
        limit: u64,
        stops: &Stops<'_>,
        told: &mut Trail,
        watch: &mut W,
        sink: &mut S,
    ) -> Result<Option<Stop>, Refused>
        requires limit { limit ≤ latest }
        requires nothing { due_outputs self.old ≡ [] }
        requires made { self.old.made < 2 ^ 64 }
        requires unmet { W.met watch.old ≡ None }
        ensures made { GoesUntil (by S.took S.refused) self.old limit stops.now (W.met watch.new)
            sink.old result self.new sink.new }
        ensures told { IsTold self.old limit self.new told.old told.new }
        ensures passes { BoardPasses stops.now self.old self.new }
        ensures watched { BoardWatched (W.marks watch.old) self.old self.new (W.met watch.new) }
    {
        let mut samples = [0; BATCH_SAMPLES];
        while self.time() < limit {
            if let Some(met) = self.stretch(limit, &mut samples, stops, told, watch, sink)? {
                return Ok(Some(met));
            }
            if watch.has_met() {
                return Ok(None);
            }
            if stops.has(self.regs().pc) {
                return Ok(None);
            }
        }
        Ok(None)
    }

    /// Does steps up to a limit or to a stop, where nothing is watched, and none is told. The silent trail is forgotten and not dropped, for
    /// one that tells would give memory back, and what calls for that can't be linked where a host has no heap.
    #[inline(always)]
    fn run_untold<S: Sink>(&mut self, limit: u64, sink: &mut S) -> Result<Option<Stop>, Refused>
        requires limit { limit ≤ latest }
        requires nothing { due_outputs self.old ≡ [] }
        requires made { self.old.made < 2 ^ 64 }
        ensures { GoesTo (by S.took S.refused) self.old limit sink.old result self.new sink.new }
    {
        let mut nobody = Trail::silent();
        let ran = self.run(limit, &Stops::none(), &mut nobody, &mut Unwatched, sink);
        forget(nobody);
        ran
    }

    /// Does steps while the time is before a limit, up to a stop, and offers what each gives. Nothing is due before.
    pub fn go_to<S: Sink>(&mut self, limit: u64, sink: &mut S) -> Result<Option<Stop>, Refused>
        requires limit { limit ≤ latest }
        requires nothing { due_outputs self.old ≡ [] }
        ensures { GoesTo (by S.took S.refused) self.old limit sink.old result self.new sink.new }
    {
        // (its bound, that of a u64, is what `run` asks of the count)
        self.made();
        self.run_untold(limit, sink)
    }

    /// Does steps while the time is before a limit, up to a stop, or before one that begins where it is to stop, unless it is the first, or up
    /// to one that did something at a watched address, and offers what each gives. Each step is told. Nothing is due before.
    pub fn go<S: Sink, W: Watch>(
        &mut self,
        limit: u64,
        stops: &Stops<'_>,
        told: &mut Trail,
        watch: &mut W,
        sink: &mut S,
    ) -> Result<Option<Stop>, Refused>
        requires limit { limit ≤ latest }
        requires nothing { due_outputs self.old ≡ [] }
        requires unmet { W.met watch.old ≡ None }
        ensures made { GoesUntil (by S.took S.refused) self.old limit stops.now (W.met watch.new)
            sink.old result self.new sink.new }
        ensures told { IsTold self.old limit self.new told.old told.new }
        ensures passes { BoardPasses stops.now self.old self.new }
        ensures watched { BoardWatched (W.marks watch.old) self.old self.new (W.met watch.new) }
    {
        self.made();
        self.run(limit, stops, told, watch, sink)
    }

    /// Lets so many microseconds go by: offers what is due, then does steps, and offers what each gives, while the time is before
    /// that of all microseconds asked so far, or to a stop.
    pub fn exec<S: Sink>(&mut self, us: u32, sink: &mut S) -> Result<Ran, Fault>
        ensures { Executes (by S.took S.refused) self.old us sink.old result self.new sink.new }
    {
        let asked = self.asked + u64::from(us);
        if asked > MOST_ASKED {
            return Err(Fault::TooFar);
        }
        self.asked = asked;
        let begun = self.time();
        if self.offer(sink).is_err() {
            return Err(Fault::Refused);
        }
        match self.run_untold(384 * asked / 125, sink) {
            Ok(stop) => Ok(Ran {
                ticks: self.time() - begun,
                stop,
            }),
            Err(_) => Err(Fault::Refused),
        }
    }
}

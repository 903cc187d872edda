//! A live board that goes on until its time is over, or an address, an access to a watched one, a stop or a full buffer ends it.

ghost use Rattle.std.specs.Prelude.{◌≡◌, ◌≤◌, ◌+◌, ◌^◌, ◌&&◌, None, []};
ghost use Rattle.pac_board.specs.State.{due_outputs, latest, latest_end};
ghost use Rattle.pac_board.specs.Stops.{is_stop};
ghost use Rattle.pac_live.specs.LiveCodes as codes;
ghost use Rattle.pac_live.specs.Live as live_specs;
ghost use Rattle.pac_live.specs.LiveUntil as live_until;
ghost use Rattle.pac_live.specs.LiveUntils.{OpensSet, IsMapOrFault, HasLimit, WalksOn, IsGone};

use crate::live::PacLive;
use crate::live_calls::check_open;
use pac_block::ran::told;
use pac_block::roms::chunk;
use pac_block::sounds::Sounds;
use pac_block::{HostFault, PacRan};
use pac_board::{Access, Board, LATEST, Stop, Stops, Trail, Unwatched, Watch, WatchedAddresses};
use std::mem::forget;

/// Why a call ended.
#[derive(Clone, Copy)]
pub enum Ended {
    /// The time is over.
    TimeOver,
    /// The board is before an address of the set.
    AtPlace,
    /// The board can't go on.
    AtStop,
    /// The buffer has no room for the next sample.
    BufferFull,
    /// A watched address was written to or read.
    AtAccess,
}

/// What a call of `pac_live_until` did.
#[repr(C)]
#[derive(Clone, Copy)]
pub struct PacUntil {
    /// T-states that went by.
    pub ticks: u64,
    /// Samples that were given, at the head of the buffer.
    pub samples: u32,
    /// Vertical blanks that came: pictures that were finished.
    pub pictures: u32,
    /// Why it ended.
    pub why: u32,
    /// Why the board stopped; 0 where it didn't, and then `bytes` and `vector` are 0.
    pub stop: u32,
    /// Where the board is.
    pub pc: u16,
    /// The watched address that the last step wrote to or read.
    pub address: u16,
    /// What it did there: 1 where it wrote, 2 where it read, 0 where it did neither; then `address`, `before` and `after` are 0.
    pub access: u8,
    /// What a read there gave right before a write; of a read what it gives now.
    pub before: u8,
    /// The byte that was written; of a read what it gives now.
    pub after: u8,
    /// The interrupt vector where that is the reason of a stop, and else 0.
    pub vector: u8,
    /// The bytes from `pc` on at a stop.
    pub bytes: [u8; 4],
    /// 0.
    pub zero: u32,
}

/// The number of what ended a call.
fn number(ended: Ended) -> u32
    ensures { result ≡ codes.ended_number ended }
{
    match ended {
        Ended::TimeOver => 1,
        Ended::AtPlace => 2,
        Ended::AtStop => 3,
        Ended::BufferFull => 4,
        Ended::AtAccess => 5,
    }
}

/// Of an access, or of none: its number, its address, and the byte there before and after.
fn access_told(board: &Board, met: Option<Access>) -> (u8, u16, u8, u8)
    ensures number { result.0 ≡ codes.access_number met }
    ensures address { result.1 ≡ codes.access_address met }
    ensures before { result.2 ≡ codes.byte_before (codes.reads_now board.now) met }
    ensures after { result.3 ≡ codes.byte_after (codes.reads_now board.now) met }
{
    match met {
        None => (0, 0, 0, 0),
        Some(
            Access::Write {
                address,
                before,
                written,
            },
        ) => (1, address, before, written),
        Some(Access::Read { address }) => {
            let now = board.peek(address);
            (2, address, now, now)
        }
    }
}

/// What is told of a run that ended so, by the access that its last step made, and the board as it is then.
fn until_told(ran: &PacRan, ended: Ended, met: Option<Access>, board: &Board) -> PacUntil
    ensures { result ≡ codes.until_of ran.now ended met board.now }
{
    let (access, address, before, after) = access_told(board, met);
    PacUntil {
        ticks: ran.ticks,
        samples: ran.samples,
        pictures: ran.pictures,
        why: number(ended),
        stop: ran.stop,
        pc: board.regs().pc,
        address,
        access,
        before,
        after,
        vector: ran.vector,
        bytes: ran.bytes,
        zero: 0,
    }
}

/// The addresses of a set that a host hands in.
fn stops_of(places: &[u8]) -> Result<Stops<'_>, HostFault>
    ensures { OpensSet places.now result }
{
    if places.is_empty() {
        return Ok(Stops::none());
    }
    if places.len() != 65_536 {
        return Err(HostFault::WrongLength);
    }
    Ok(Stops::at(chunk(places, 0)))
}

/// Whether a host hands in a map: a byte for each address, or none.
fn check_map(bytes: &[u8]) -> Result<(), HostFault>
    ensures { IsMapOrFault bytes.now result }
{
    if bytes.is_empty() || bytes.len() == 65_536 {
        return Ok(());
    }
    Err(HostFault::WrongLength)
}

/// The time at which so many T-states are over from now.
fn limit_after(time: u64, ticks: u32) -> Result<u64, HostFault>
    requires { time ≤ latest_end }
    ensures { HasLimit time ticks result }
{
    let limit = time + u64::from(ticks);
    if limit > LATEST {
        return Err(HostFault::TooLong);
    }
    Ok(limit)
}

/// Goes on with a board that has nothing due.
fn walk_on<W: Watch>(
    board: &mut Board,
    limit: u64,
    stops: &Stops<'_>,
    watch: &mut W,
    sounds: &mut Sounds<'_>,
) -> (Ended, Option<Stop>)
    requires limit { limit ≤ latest }
    requires nothing { due_outputs board.old ≡ [] }
    requires unmet { W.met watch.old ≡ None }
    ensures { WalksOn stops.now (W.marks watch.old) limit board.old sounds.old result.0
        result.1 (W.met watch.new)
        board.new sounds.new }
{
    let begun = board.time();
    let mut nobody = Trail::silent();
    let went = board.go(limit, stops, &mut nobody, watch, sounds);
    forget(nobody);
    match went {
        Err(_) => (Ended::BufferFull, None),
        Ok(Some(stop)) => (Ended::AtStop, Some(stop)),
        Ok(None) => {
            if watch.has_met() {
                return (Ended::AtAccess, None);
            }
            if board.time() <= begun {
                return (Ended::TimeOver, None);
            }
            if stops.has(board.regs().pc) {
                return (Ended::AtPlace, None);
            }
            (Ended::TimeOver, None)
        }
    }
}

/// Whether a call ends before its first step: something was due, and the board is where steps are to stop.
fn ends_at_once(board: &Board, is_due: bool, stops: &Stops<'_>) -> bool
    ensures { result ≡ (is_due && is_stop stops.now board.now.state.now.regs.pc) }
{
    is_due && stops.has(board.regs().pc)
}

/// Goes on with a board: what is due is given first.
fn go_on<W: Watch>(
    board: &mut Board,
    limit: u64,
    stops: &Stops<'_>,
    watch: &mut W,
    sounds: &mut Sounds<'_>,
) -> (Ended, Option<Stop>)
    requires limit { limit ≤ latest }
    requires later { board.old.state.now.time ≤ limit }
    requires taken { sounds.old.taken ≡ 0 }
    requires pictures { sounds.old.pictures ≡ 0 }
    requires unmet { W.met watch.old ≡ None }
    ensures { IsGone stops.now (W.marks watch.old) limit board.old sounds.old result.0
        result.1 (W.met watch.new)
        board.new sounds.new }
{
    // (its bound, that of a u64, is what no steps leave)
    board.made();
    let is_due = board.fields().due.is_some();
    if board.offer(sounds).is_err() {
        return (Ended::BufferFull, None);
    }
    if ends_at_once(board, is_due, stops) {
        return (Ended::AtPlace, None);
    }
    walk_on(board, limit, stops, watch, sounds)
}

/// Goes on with a board, and tells of it.
fn go_told<W: Watch>(
    board: &mut Board,
    limit: u64,
    stops: &Stops<'_>,
    watch: &mut W,
    samples: &mut [i16],
) -> PacUntil
    requires limit { limit ≤ latest }
    requires later { board.old.state.now.time ≤ limit }
    requires soon { limit ≤ board.old.state.now.time + 2 ^ 32 }
    requires unmet { W.met watch.old ≡ None }
    ensures { live_until.IsGoneOn (is_stop stops.now) (W.marks watch.old) limit board.old
        samples.old board.new samples.new result }
{
    let begun = board.time();
    let mut sounds = Sounds {
        samples,
        taken: 0,
        pictures: 0,
    };
    let (ended, stop) = go_on(board, limit, stops, watch, &mut sounds);
    let ticks = board.time().saturating_sub(begun);
    let ran = told(ticks, sounds.taken as u32, sounds.pictures, stop);
    until_told(&ran, ended, watch.met(), board)
}

/// Goes on with a board, where a map of watched addresses is handed in or no byte.
fn go_by(
    board: &mut Board,
    limit: u64,
    stops: &Stops<'_>,
    watched: &[u8],
    samples: &mut [i16],
) -> PacUntil
    requires limit { limit ≤ latest }
    requires later { board.old.state.now.time ≤ limit }
    requires soon { limit ≤ board.old.state.now.time + 2 ^ 32 }
    requires map { live_until.IsMap watched.now }
    ensures { live_until.IsGoneOn (is_stop stops.now) (live_until.watch_map watched.now)
        limit board.old samples.old
        board.new samples.new result }
{
    if watched.is_empty() {
        return go_told(board, limit, stops, &mut Unwatched, samples);
    }
    let mut watch = WatchedAddresses::new(chunk(watched, 0));
    go_told(board, limit, stops, &mut watch, samples)
}

/// Goes on with a board for so many T-states, until an address of a set, an access to a watched address, a stop or a full buffer.
fn until_board(
    board: &mut Board,
    ticks: u32,
    places: &[u8],
    watched: &[u8],
    samples: &mut [i16],
    ran: &mut PacUntil,
) -> Result<(), HostFault>
    ensures { live_until.Going ticks places.now watched.now samples.old samples.new ran.old ran.new
        result board.old board.new }
{
    let stops = stops_of(places)?;
    check_map(watched)?;
    let limit = limit_after(board.time(), ticks)?;
    *ran = go_by(board, limit, &stops, watched, samples);
    Ok(())
}

/// Goes on with a live board for so many T-states, until an address of a set, an access to a watched address, a stop or a full buffer.
pub fn until(
    live: &mut PacLive,
    ticks: u32,
    places: &[u8],
    watched: &[u8],
    samples: &mut [i16],
    ran: &mut PacUntil,
) -> Result<(), HostFault>
    ensures { live_specs.Lives ((samples.new ≡ samples.old) × (ran.new ≡ ran.old))
        (live_until.Going ticks places.now watched.now samples.old samples.new ran.old ran.new)
        result live.old live.new }
{
    check_open(live)?;
    until_board(live.board(), ticks, places, watched, samples, ran)
}

// A life on the bytes of a store.
ghost use Rattle.std.specs.Prelude.{◌≡◌, ◌≢◌, All, IfErr, IfOk, length};
ghost use Rattle.ddr4_module.specs.WildLives.{WorksWithin};
ghost use Rattle.nv_profile.specs.Profile.{IsNoProfile};
ghost use Rattle.whole_lives.specs.Lives.{Answers, AnswersAsked, LivesOn};

use crate::events::{Answer, Ask, answers_of, events_of};
use crate::stores::{bytes_of, capacity_of, device_of, profile_of};
use ddr4_module::{Sizes, wild_life};
use energy_budget::{Costs, Meter};
use interleave_map::ReadyMap;
use nv_machine::Event;
use nv_profile::Profile;
use reply_codes::{DONE, NO_MEMORY, ROOM, SIZE, Told, restore_code};
use slot_store::device_size;
use std::alloc::Global;

/// What a life came to: the bytes of its device, and the answers.
#[derive(Drop)]
struct Ended {
    bytes: Vec<u8>,
    answers: Vec<Answer>,
}

// A life of the profile's module on these bytes, with a gauge at this level, through these events.
fn live_on(
    alloc: Global,
    profile: &Profile,
    bytes: &[u8],
    level: u64,
    events: &[Event],
) -> Result<Ended, Told>
    requires { All (WorksWithin profile.now.checked.geometry.channels) events.now }
    ensures lives { IfOk result (λ ended. Answers profile.now bytes.now ended.bytes.items level
        events.now ended.answers.items) }
    ensures refused { IfErr result (λ told. (told.code ≢ 0) × (told.code ≢ 2)) }
{
    let map = ReadyMap {
        interleaving: profile.map,
        checked: profile.checked,
    };
    let sizes = Sizes {
        depth: profile.sizes.depth,
        reads: profile.sizes.reads,
        trail: profile.sizes.trail,
        keeps_commands: false,
    };
    let costs = Costs::of(&profile.checked, &profile.costs).with_retries(profile.sizes.retries);
    let Some(mut device) = device_of(alloc, bytes) else {
        return Err(Told::code(NO_MEMORY));
    };
    let mut gauge = Meter::with(level, 0);
    let lived = wild_life(
        alloc,
        &map,
        &profile.checked,
        costs,
        sizes,
        events,
        &mut device,
        &mut gauge,
    );
    let replies = match lived {
        Ok(replies) => replies,
        Err(error) => return Err(Told::code(restore_code(error))),
    };
    let Ok(answers) = answers_of(alloc, &replies) else {
        return Err(Told::code(NO_MEMORY));
    };
    let Ok(bytes) = bytes_of(alloc, &mut device) else {
        return Err(Told::code(NO_MEMORY));
    };
    Ok(Ended { bytes, answers })
}

// The same of the profile of a text and of the events that are asked for, where there is room for so many answers.
fn live_asked(
    alloc: Global,
    text: &[u8],
    bytes: &[u8],
    level: u64,
    asks: &[Ask],
    room: usize,
) -> Result<Ended, Told>
    ensures lives { IfOk result (λ ended. AnswersAsked text.now bytes.now ended.bytes.items level
        asks.now ended.answers.items) }
    ensures refused { IfErr result (λ told. told.code ≢ 0) }
    ensures no_profile { IfErr result (λ told. told.code ≡ 2 → IsNoProfile text.now) }
{
    let profile = match profile_of(alloc, text) {
        Ok(profile) => profile,
        Err(told) => return Err(told),
    };
    let size = device_size(capacity_of(&profile.checked));
    if bytes.len() != size {
        return Err(Told::with(SIZE, size as u64, 0));
    }
    if room < asks.len() {
        return Err(Told::with(ROOM, asks.len() as u64, 0));
    }
    let events = match events_of(alloc, asks, profile.checked.geometry.channels) {
        Ok(events) => events,
        Err(told) => return Err(told),
    };
    match live_on(alloc, &profile, bytes, level, &events) {
        Ok(ended) => Ok(ended),
        Err(told) => Err(told),
    }
}

/// Restores the bytes of a store, and has a module of the profile of a text live on them through the events that are asked for, with a
/// gauge at this level: each has its answer, and the bytes are those that the device has at the end. What is refused is told: an event
/// that there isn't, less room than answers, bytes that restore to nothing, want of memory. Then nothing has changed.
///
/// **Whatever a stop leaves, at any moment of the life, a restore finds the memory after a prefix of the accepted writes, which has each
/// one that was told persistent, unless the gauge or the device is to blame.** The bytes at the end are one of these.
pub fn live(
    alloc: Global,
    text: &[u8],
    store: &mut [u8],
    level: u64,
    asks: &[Ask],
    answers: &mut [Answer],
) -> Told
    ensures lives { result.code ≡ 0 → LivesOn text.now store.old store.new level asks.now
        answers.old answers.new }
    ensures no_profile { result.code ≡ 2 → IsNoProfile text.now }
    ensures kept { result.code ≢ 0 → (store.new ≡ store.old) × (answers.new ≡ answers.old) }
{
    let ended = match live_asked(alloc, text, store, level, asks, answers.len()) {
        Ok(ended) => ended,
        Err(told) => return told,
    };
    if ended.bytes.len() != store.len() {
        return Told::code(SIZE);
    }
    store.copy_from_slice(&ended.bytes);
    let count = ended.answers.len().min(answers.len());
    answers[..count].copy_from_slice(&ended.answers[..count]);
    Told::with(DONE, count as u64, 0)
}

//! Events that are drawn from a generator of random words.

ghost use Rattle.std.specs.Prelude.{◌≡◌, ◌<◌, ◌≤◌, ◌-◌, length, min, IfOk, slice_get};
ghost use Rattle.network.specs.Network.{Sent};
ghost use Rattle.replay.specs.Drawing as drawing;

use nop_types::{Actor, Dest, Host, NoMemory, Op, Tick};
use rand_core::utils::NextWord;
use rand_pcg::Lcg64Xsh32;
use schedule_text::Event;
use std::alloc::Global;
use world::World;

/// The generator of a number.
#[tactic(auto, unfolding(crate::specs::Drawing::generator_of))]
pub fn generator(number: u64) -> Lcg64Xsh32
    ensures { result ≡ drawing.generator_of number }
{
    Lcg64Xsh32::new(number, 1)
}

/// The next word, modulo n.
#[tactic(auto, unfolding(crate::specs::Drawing::draw))]
fn draw(words: &mut Lcg64Xsh32, n: u32) -> u32
    requires { 1 ≤ n }
    ensures value { drawing.draw n words.old ≡ (result, words.new) }
    ensures below { result < n }
{
    words.next_word() % n
}

fn key(words: &mut Lcg64Xsh32) -> u8
    ensures { drawing.key_drawn words.old ≡ (result, words.new) }
{
    97 + draw(words, 8) as u8
}

fn value(words: &mut Lcg64Xsh32) -> u8
    ensures { drawing.value_drawn words.old ≡ (result, words.new) }
{
    97 + draw(words, 26) as u8
}

/// The op that gets a key of one byte.
pub fn get_of(alloc: Global, key: u8) -> Result<Op, NoMemory>
    ensures { IfOk result (λ op. op ≡ drawing.get_of key) }
{
    Op::new(alloc, &[b'G', 0, 1, key])
}

/// The op that puts a value of one byte.
fn put_of(alloc: Global, key: u8, value: u8) -> Result<Op, NoMemory>
    ensures { IfOk result (λ op. op ≡ drawing.put_of key value) }
{
    Op::new(alloc, &[b'P', 0, 1, key, 0, 1, value])
}

fn put(alloc: Global, words: &mut Lcg64Xsh32) -> Result<Event, NoMemory>
    ensures { IfOk result (λ e. drawing.put_drawn words.old ≡ (e, words.new)) }
{
    let client = draw(words, 4);
    let (key, value) = (key(words), value(words));
    Ok(Event::Submit(client, put_of(alloc, key, value)?))
}

fn get(alloc: Global, words: &mut Lcg64Xsh32) -> Result<Event, NoMemory>
    ensures { IfOk result (λ e. drawing.get_drawn words.old ≡ (e, words.new)) }
{
    let client = draw(words, 4);
    let key = key(words);
    Ok(Event::Submit(client, get_of(alloc, key)?))
}

/// One of the actors that a datagram was sent to.
fn taker(words: &mut Lcg64Xsh32, dest: Dest) -> Actor
    ensures { drawing.taker_drawn dest words.old ≡ (result, words.new) }
{
    match dest {
        Dest::Replicas => Actor::Replica(draw(words, 5) as u8),
        Dest::Sequencers => Actor::Sequencer(draw(words, 2) as u8),
        Dest::One(actor) => actor,
    }
}

/// How far back among the datagrams that were sent.
fn back(words: &mut Lcg64Xsh32, count: u64) -> u64
    requires { 1 ≤ count }
    ensures value { drawing.back_drawn count words.old ≡ (result, words.new) }
    ensures below { result < count }
{
    u64::from(draw(words, count.min(32) as u32))
}

fn deliver<H: Host>(words: &mut Lcg64Xsh32, world: &World<H>) -> Event
    requires { 1 ≤ length world.now.state.sent }
    ensures { drawing.deliver_drawn world.now.state.sent words.old ≡ (result, words.new) }
{
    let count = world.sent_count();
    let index = count - 1 - back(words, count);
    match world.sent_to(index) {
        Some(dest) => Event::Deliver(index, taker(words, dest)),
        None => unreachable!(),
    }
}

fn replica_tick(words: &mut Lcg64Xsh32, tick: Tick) -> Event
    ensures { drawing.replica_tick_drawn tick words.old ≡ (result, words.new) }
{
    Event::Tick(Actor::Replica(draw(words, 5) as u8), tick)
}

fn retry(words: &mut Lcg64Xsh32) -> Event
    ensures { drawing.retry_drawn words.old ≡ (result, words.new) }
{
    Event::Tick(Actor::Client(draw(words, 4)), Tick::Retry)
}

/// A crash, or an order to install a sequencer.
fn rare(words: &mut Lcg64Xsh32) -> Event
    ensures { drawing.rare_drawn words.old ≡ (result, words.new) }
{
    if draw(words, 16) == 0 {
        Event::Crash(Actor::Replica(3 + draw(words, 2) as u8))
    } else {
        Event::Install(0, draw(words, 2) as u8)
    }
}

/// A put, a get or a delivery.
fn often<H: Host>(
    alloc: Global,
    words: &mut Lcg64Xsh32,
    world: &World<H>,
    n: u32,
) -> Result<Event, NoMemory>
    requires { 1 ≤ length world.now.state.sent }
    ensures { IfOk result (λ e. drawing.often_drawn world.now.state.sent n words.old
        ≡ (e, words.new)) }
{
    match n {
        0..=19 => put(alloc, words),
        20..=27 => get(alloc, words),
        _ => Ok(deliver(words, world)),
    }
}

/// A timer, or what is rare.
fn seldom(words: &mut Lcg64Xsh32, n: u32) -> Event
    ensures { drawing.seldom_drawn n words.old ≡ (result, words.new) }
{
    match n {
        0..=247 => replica_tick(words, Tick::Resend),
        248..=249 => replica_tick(words, Tick::Sync),
        250..=251 => retry(words),
        252 => replica_tick(words, Tick::Suspect),
        253 => Event::Tick(Actor::Controller(0), Tick::Probe),
        254 => Event::Tick(Actor::Controller(0), Tick::Resend),
        _ => rare(words),
    }
}

fn event_by<H: Host>(
    alloc: Global,
    words: &mut Lcg64Xsh32,
    world: &World<H>,
    n: u32,
) -> Result<Event, NoMemory>
    requires { 1 ≤ length world.now.state.sent }
    ensures { IfOk result (λ e. drawing.event_by world.now.state.sent n words.old
        ≡ (e, words.new)) }
{
    if n <= 241 {
        often(alloc, words, world, n)
    } else {
        Ok(seldom(words, n))
    }
}

/// Draws an event in a world where something was sent.
#[tactic(auto, unfolding(crate::specs::Drawing::event_drawn))]
pub fn event<H: Host>(
    alloc: Global,
    words: &mut Lcg64Xsh32,
    world: &World<H>,
) -> Result<Event, NoMemory>
    requires { 1 ≤ length world.now.state.sent }
    ensures { IfOk result (λ e. drawing.event_drawn world.now.state.sent words.old
        ≡ (e, words.new)) }
{
    let n = draw(words, 256);
    event_by(alloc, words, world, n)
}

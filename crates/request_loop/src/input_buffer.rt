//! The bytes that were read and are not used yet.
ghost use Rattle.std.specs.Prelude.{◌≡◌, ◌+◌, ◌-◌, ◌<◌, ◌≤◌, ◌++◌, ℕ, List, [], length, take, drop, IfOk, OnOk, OnErr};
ghost use Rattle.outside_world.specs.Faults.{Rose};
ghost use Rattle.outside_world.specs.Source.{with_front, IsSpent};
ghost use Rattle.request_loop.specs.Holding.{held_in};

use outside_world::{Failed, Source};
use site_ids::NoMemory;
use std::alloc::Global;
use std::marker::Model;

/// How many bytes can be held: twice as many as the longest request has, so that bytes are moved to
/// the front once for as many that are read, at the most.
pub const ROOM: usize = 557_056;

/// The bytes that were read and are not used yet, in the room for them: they stand from one place
/// to another. A contract sees the list of them.
#[derive(Drop)]
pub struct InputBuffer {
    room: Vec<u8>,
    from: usize,
    to: usize,
}

impl Model for InputBuffer {
    ghost use Rattle.std.specs.Prelude.{◌≡◌, ◌≤◌, ℕ, List, length};
    ghost use Rattle.request_loop.specs.Holding.{held_in};
    ghost use Rattle.request_loop.specs.declared.input_buffer.TheConstants.{ROOM};

    ghost Value = { List ℕ };

    ghost view = { λ buffer. held_in buffer.room.items buffer.from buffer.to };

    ghost invariant = { λ buffer. (buffer.from ≤ buffer.to) × (buffer.to ≤ ROOM)
        × (length buffer.room.items ≡ ROOM) };
}

impl InputBuffer {
    /// No bytes, and the room for them.
    pub fn new(alloc: Global) -> Result<InputBuffer, NoMemory>
        ensures { IfOk result (λ buffer. buffer ≡ []) }
    {
        let room = empty_room(alloc)?;
        Ok(InputBuffer {
            room,
            from: 0,
            to: 0,
        })
    }

    /// The bytes.
    pub fn bytes(&self) -> &[u8]
        ensures { result.now ≡ self.now }
    {
        &self.room[self.from..self.to]
    }

    /// Lets the first `n` bytes go, without moving the others.
    pub fn skip(&mut self, n: usize)
        requires { n ≤ length self.old }
        ensures { self.new ≡ drop n self.old }
    {
        self.from += n;
    }

    /// Reads more bytes after those that are held, and returns how many.
    ///
    /// It moves the bytes to the front of the room only if the room after them is used up.
    pub fn fill<S: Source>(&mut self, source: &mut S) -> Result<usize, Failed>
        requires { length self.old < ROOM }
        // Nothing is lost or made, whatever the outcome.
        ensures bytes { with_front self.old (S.left source.old) ≡ with_front self.new (S.left source.new) }
        // The held bytes stay, with others after them.
        ensures grows { (more : List ℕ) × (self.new ≡ self.old ++ more) }
        ensures more { IfOk result (λ n. length self.new ≡ length self.old + n) }
        ensures fits { length self.new ≤ ROOM }
        ensures ends { IfOk result (λ n. n ≡ 0 → (self.new ≡ self.old) × IsSpent (S.left source.new)) }
        ensures err { OnErr result (self.new ≡ self.old) }
        ensures later { S.faults source.old ≤ S.faults source.new }
        ensures failed { OnErr result (Rose (S.faults source.old) (S.faults source.new)) }
    {
        let filled = fill_room(&mut self.room, self.from, self.to, source);
        self.from = filled.from;
        self.to = filled.to;
        filled.outcome
    }
}

/// The room for the bytes, all zeros.
fn empty_room(alloc: Global) -> Result<Vec<u8>, NoMemory>
    ensures { IfOk result (λ room. length room.items ≡ ROOM) }
{
    Ok(vec![in alloc; 0; ROOM]?)
}

/// Where the bytes stand in their room after a read, and its outcome.
#[derive(Drop)]
struct Filled {
    from: usize,
    to: usize,
    outcome: Result<usize, Failed>,
}

/// Reads more bytes after those that stand in the room from one place to another.
fn fill_room<S: Source>(room: &mut [u8], from: usize, to: usize, source: &mut S) -> Filled
    requires order { from ≤ to }
    requires within { to ≤ length room.old }
    requires few { to - from < length room.old }
    ensures order { result.from ≤ result.to }
    ensures within { result.to ≤ length room.new }
    ensures bytes { with_front (held_in room.old from to) (S.left source.old)
        ≡ with_front (held_in room.new result.from result.to) (S.left source.new) }
    ensures grows { (more : List ℕ)
        × (held_in room.new result.from result.to ≡ held_in room.old from to ++ more) }
    ensures more { IfOk result.outcome (λ n. result.to - result.from ≡ (to - from) + n) }
    ensures ends { IfOk result.outcome (λ n. n ≡ 0
        → (held_in room.new result.from result.to ≡ held_in room.old from to) × IsSpent (S.left source.new)) }
    ensures err { OnErr result.outcome (held_in room.new result.from result.to ≡ held_in room.old from to) }
    ensures later { S.faults source.old ≤ S.faults source.new }
    ensures failed { OnErr result.outcome (Rose (S.faults source.old) (S.faults source.new)) }
{
    let (from, to) = make_room(room, from, to);
    match read_behind(room, to, source) {
        Ok(n) => Filled {
            from,
            to: to + n,
            outcome: Ok(n),
        },
        Err(failed) => Filled {
            from,
            to,
            outcome: Err(failed),
        },
    }
}

/// Where the bytes from one place to another stand once there is room after them.
fn make_room(room: &mut [u8], from: usize, to: usize) -> (usize, usize)
    requires order { from ≤ to }
    requires within { to ≤ length room.old }
    requires few { to - from < length room.old }
    ensures same { held_in room.new result.0 result.1 ≡ held_in room.old from to }
    ensures order { result.0 ≤ result.1 }
    ensures count { result.1 - result.0 ≡ to - from }
    ensures room { result.1 < length room.new }
{
    if to < room.len() {
        return (from, to);
    }
    room.copy_within(from..to, 0);
    (0, to - from)
}

/// Reads into the room from a place on, and leaves what stands before it.
fn read_behind<S: Source>(room: &mut [u8], to: usize, source: &mut S) -> Result<usize, Failed>
    requires { to < length room.old }
    ensures front { take to room.new ≡ take to room.old }
    ensures moved { IfOk result
        (λ n. S.left source.old ≡ with_front (take n (drop to room.new)) (S.left source.new)) }
    ensures fits { IfOk result (λ n. to + n ≤ length room.new) }
    ensures ends { IfOk result (λ n. n ≡ 0 → IsSpent (S.left source.new)) }
    ensures kept { OnErr result (S.left source.new ≡ S.left source.old) }
    ensures later { S.faults source.old ≤ S.faults source.new }
    ensures failed { OnErr result (Rose (S.faults source.old) (S.faults source.new)) }
{
    source.read(&mut room[to..])
}

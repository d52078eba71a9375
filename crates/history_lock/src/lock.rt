// The lock, and the passes with which threads use it.
ghost use Rattle.std.specs.Prelude.{◌≡◌, ℕ, ◌+◌, ◌^◌, ◌<◌, List, [], ◌∷◌, ◌++◌, length, IfOk, IfSome, IsNone, ◌≤◌, ◌↔◌};
ghost use Rattle.std.specs.Fn.{FnOnceTakesAtMut, FnOnceReturnsAtMut};
ghost use Rattle.history_lock.specs.Rule.{Takes};
ghost use Rattle.history_lock.specs.Views.{StartsWith, ClosedWithin, AddsOne, Finds, mine_after, view, longer};
ghost use Rattle.history_lock.specs.declared.view.Stage.TheVariants.{Idle, Holding};

use crate::rule::{Adds, Draws, History, Leaves, Looks, Seats, Tickets};
use crate::view::View;
use atomic_table::{Seat, Table};
use std::alloc::{AllocError, Global};
use std::sync::Wait;
use std::thread;

const TICKET: usize = 0;

const SERVING: usize = 1;

const ENTRIES: usize = 2;

const SLOT: usize = 0;

/// A value under a lock that threads share. Those who wait are served in the order of their tickets, one at a time.
///
/// Its table has three words (the next ticket, the ticket that is served, and how many entries the history has) and one slot, in which the value
/// stands while nobody holds it.
#[derive(Drop)]
pub struct HistoryLock<T: History> {
    pub table: Table<Option<T>, View<T::Entry>, u64, Tickets<T>, Global>,
    pub ghost shape: { (table.shared.table_id.words ≡ 3) × (table.shared.table_id.slots ≡ 1) },
}

/// What one thread needs to use a lock, and what it knows: in `seat.me.0` the history as far as it has `seen` it, and the positions of the entries that
/// are its own, `mine`. Every position of the history is in the `mine` of exactly one pass.
#[derive(Drop)]
pub struct Pass<T: History> {
    pub seat: Seat<Option<T>, View<T::Entry>>,
    /// 0 for the first pass; each pass that is split off has the next number.
    pub number: u32,
    /// The number of the next pass that is split off.
    pub next: u32,
    /// How many passes may still be split off.
    pub spare: u32,
    pub ghost at_rest: { (seat.me.0.stage ≡ Idle) × (seat.me.1 ≡ []) },
    pub ghost spare_is: { spare ≡ seat.me.0.spare },
    pub ghost numbers: { next + spare < 2 ^ 32 },
}

impl<T: History> HistoryLock<T> {
    /// A lock for so many passes, and the first of them. The value's history is empty. `Err` is want of memory.
    pub fn new(alloc: Global, value: T, seats: u32) -> Result<(HistoryLock<T>, Pass<T>), AllocError>
    where
        T: Drop,
        requires seats { 1 ≤ seats }
        requires empty { T.history value ≡ [] }
        ensures pass { IfOk result (λ r. (r.1.seat.table_id ≡ r.0.table.shared.table_id) × (r.1.number ≡ 0) × (r.1.spare + 1 ≡ seats)) }
        ensures empty { IfOk result (λ r. (r.1.seat.me.0.seen ≡ []) × (r.1.seat.me.0.mine ≡ [])) }
    {
        let spare = seats - 1;
        let mut slots = Vec::new(alloc);
        slots.push(Some(value))?;
        let Ok((table, seat)) = Table::new(alloc, &[0, 0, 0], slots, &u64::from(spare)) else {
            return Err(AllocError);
        };
        Ok((
            HistoryLock { table },
            Pass {
                seat,
                number: 0,
                next: 1,
                spare,
            },
        ))
    }

    /// One call of `f` on the value, while nobody else holds it. It may wait for its turn.
    ///
    /// What `f` finds has a history that begins with all that the pass had seen, in which no entry of another pass closes a position of this one.
    /// It adds at most one entry, which closes no position but of this pass. The pass has then seen the whole history, and the entry is its own.
    pub fn with<R: Wait, U, F: FnOnce(&mut T) -> U>(&self, rt: &R, pass: &mut Pass<T>, f: F) -> U
        requires pass { (pass.old.seat.table_id ≡ self.now.table.shared.table_id) }
        requires takes { (x : T) → Finds T.history T.closes pass.old.seat.me.0 x → FnOnceTakesAtMut F.FnOnce f x }
        requires adds { (x y : T) (r : U) → Finds T.history T.closes pass.old.seat.me.0 x → FnOnceReturnsAtMut F.FnOnce f x r y → AddsOne T.closes pass.old.seat.me.0.mine (T.history x) (T.history y) }
        ensures pass { (pass.new.seat.table_id ≡ self.now.table.shared.table_id) × (pass.new.number ≡ pass.old.number) × (pass.new.spare ≡ pass.old.spare) }
        ensures called { (x y : T) × FnOnceReturnsAtMut F.FnOnce f x result y × Finds T.history T.closes pass.old.seat.me.0 x × (pass.new.seat.me.0.seen ≡ T.history y) × (pass.new.seat.me.0.mine ≡ mine_after pass.old.seat.me.0.mine (T.history x) (T.history y)) }
    {
        self.with_seat(rt, &mut pass.seat, f)
    }

    /// Another pass, which has seen as much and has no entry of its own; None exactly where no pass is spare.
    pub fn split(&self, pass: &mut Pass<T>) -> Option<Pass<T>>
        requires { (pass.old.seat.table_id ≡ self.now.table.shared.table_id) }
        ensures same { (pass.new.seat.table_id ≡ self.now.table.shared.table_id) × (pass.new.number ≡ pass.old.number) × (pass.new.seat.me.0.seen ≡ pass.old.seat.me.0.seen) × (pass.new.seat.me.0.mine ≡ pass.old.seat.me.0.mine) }
        ensures none { IsNone result ↔ (pass.old.spare ≡ 0) }
        ensures some { IfSome result (λ p. (p.seat.table_id ≡ self.now.table.shared.table_id) × (p.seat.me.0.seen ≡ pass.old.seat.me.0.seen) × (p.seat.me.0.mine ≡ []) × (p.spare ≡ 0) × (p.number ≡ pass.old.next) × (pass.new.next ≡ pass.old.next + 1) × (pass.new.spare + 1 ≡ pass.old.spare)) }
    {
        if pass.spare == 0 {
            return None;
        }
        let seat = self.table.shared.split_seat::<Seats>(&mut pass.seat);
        let number = pass.next;
        pass.next += 1;
        pass.spare -= 1;
        Some(Pass {
            seat,
            number,
            next: 0,
            spare: 0,
        })
    }

    /// The pass takes over what another one has seen, and its positions.
    pub fn join(&self, pass: &mut Pass<T>, other: Pass<T>)
        requires { (pass.old.seat.table_id ≡ self.now.table.shared.table_id) × (other.seat.table_id ≡ self.now.table.shared.table_id) }
        ensures { (pass.new.seat.table_id ≡ self.now.table.shared.table_id) × (pass.new.number ≡ pass.old.number) × (pass.new.spare ≡ pass.old.spare) × (pass.new.seat.me.0.mine ≡ pass.old.seat.me.0.mine ++ other.seat.me.0.mine) × (pass.new.seat.me.0.seen ≡ longer pass.old.seat.me.0.seen other.seat.me.0.seen) }
    {
        let Pass {
            seat,
            number: _,
            next: _,
            spare: _,
        } = other;
        self.table.shared.join_seat::<Seats>(&mut pass.seat, seat);
    }

    // The same with a seat.
    fn with_seat<R: Wait, U, F: FnOnce(&mut T) -> U>(
        &self,
        rt: &R,
        pass: &mut Seat<Option<T>, View<T::Entry>>,
        f: F,
    ) -> U
        requires pass { (pass.old.table_id ≡ self.now.table.shared.table_id) × (pass.old.me.1 ≡ []) × (pass.old.me.0.stage ≡ Idle) }
        requires takes { (x : T) → Finds T.history T.closes pass.old.me.0 x → FnOnceTakesAtMut F.FnOnce f x }
        requires adds { (x y : T) (r : U) → Finds T.history T.closes pass.old.me.0 x → FnOnceReturnsAtMut F.FnOnce f x r y → AddsOne T.closes pass.old.me.0.mine (T.history x) (T.history y) }
        ensures pass { (pass.new.table_id ≡ pass.old.table_id) × (pass.new.id ≡ pass.old.id) × (pass.new.me.1 ≡ []) × (pass.new.me.0.stage ≡ Idle) × (pass.new.me.0.spare ≡ pass.old.me.0.spare) }
        ensures called { (x y : T) × FnOnceReturnsAtMut F.FnOnce f x result y × Finds T.history T.closes pass.old.me.0 x × (pass.new.me.0.seen ≡ T.history y) × (pass.new.me.0.mine ≡ mine_after pass.old.me.0.mine (T.history x) (T.history y)) }
    {
        let mut value = self.take(rt, pass);
        let before = value.entries();
        let result = f(&mut value);
        let added = value.entries() - before;
        self.give(pass, value, added);
        result
    }

    // The value, once the ticket is served.
    fn take<R: Wait>(&self, rt: &R, pass: &mut Seat<Option<T>, View<T::Entry>>) -> T
        requires { (pass.old.table_id ≡ self.now.table.shared.table_id) × (pass.old.me.1 ≡ []) × (pass.old.me.0.stage ≡ Idle) }
        ensures same { (pass.new.table_id ≡ pass.old.table_id) × (pass.new.id ≡ pass.old.id) }
        ensures holds { (t : ℕ) × (pass.new.me ≡ (view (T.history result) pass.old.me.0.mine (Holding t) pass.old.me.0.spare, (0, None) ∷ [])) }
        ensures seen { Finds T.history T.closes pass.old.me.0 result }
    {
        self.enter(rt, pass);
        let Some(value) = self.table.shared.exchange(pass, SLOT, None) else {
            unreachable!()
        };
        value
    }

    // Gives the value back, whose history has grown by `added` entries, and lets the next one in.
    fn give(&self, pass: &mut Seat<Option<T>, View<T::Entry>>, value: T, added: u64)
        requires pass { (pass.old.table_id ≡ self.now.table.shared.table_id) × ((t : ℕ) × (pass.old.me.0.stage ≡ Holding t)) × (pass.old.me.1 ≡ (0, None) ∷ []) }
        requires adds { AddsOne T.closes pass.old.me.0.mine pass.old.me.0.seen (T.history value) }
        requires length { (length (T.history value) ≡ length pass.old.me.0.seen + added) × (length (T.history value) < 2 ^ 64) }
        ensures same { (pass.new.table_id ≡ pass.old.table_id) × (pass.new.id ≡ pass.old.id) }
        ensures left { pass.new.me ≡ (view (T.history value) (mine_after pass.old.me.0.mine pass.old.me.0.seen (T.history value)) Idle pass.old.me.0.spare, []) }
    {
        let shared = &self.table.shared;
        let empty = shared.exchange(pass, SLOT, Some(value));
        let None = empty else { unreachable!() };
        shared.fetch_add::<Adds<T>>(pass, ENTRIES, added);
        shared.fetch_add::<Leaves<T>>(pass, SERVING, 1);
    }

    // Draws a ticket, and waits until it is served.
    fn enter<R: Wait>(&self, rt: &R, pass: &mut Seat<Option<T>, View<T::Entry>>)
        requires { (pass.old.table_id ≡ self.now.table.shared.table_id) × (pass.old.me.1 ≡ []) × (pass.old.me.0.stage ≡ Idle) }
        ensures same { (pass.new.table_id ≡ pass.old.table_id) × (pass.new.id ≡ pass.old.id) }
        ensures holds { (t : ℕ) × Takes T.history T.closes pass.old.me t pass.new.me }
    {
        let shared = &self.table.shared;
        let ticket = shared.fetch_add::<Draws<T>>(pass, TICKET, 1);
        for _ in rt.forever() {
            if shared.load::<Looks<T>>(pass, SERVING) == ticket {
                return;
            }
            thread::yield_now();
        }
        unreachable!()
    }
}

// One instruction at a time.

ghost use Rattle.std.specs.Prelude.{◌≡◌, ℕ, ◌↔◌, List, Bool, true, false, Some, None, max, ◌+◌, ◌-◌, ◌*◌, ◌/◌, ◌^◌, ◌<◌, ◌≤◌, ◌∷◌, ◌++◌, [], length, slice_index, slice_get, slice_set, cond, IsTrue, IfOk, IfSome, IsNone, ◌⊎◌, Result};
ghost use Rattle.std.specs.List.{All};
ghost use Rattle.ckpt_base.specs.Trap.{trap_number};
ghost use Rattle.ckpt_base.specs.Word.{signed, word_of, word_holds, truth_word};
ghost use Rattle.dirty_pages.specs.Pages.{is_protected};
ghost use Rattle.machine_code.specs.declared.instr.Instr.{Instr};
ghost use Rattle.machine_code.specs.declared.event.Event.{Event};
ghost use Rattle.machine_code.specs.CodeView.{CodeView, Function, parameters, locals};
ghost use Rattle.machine_code.specs.Valid.{IsValid, has_checkpoint, Stands};
ghost use Rattle.machine_code.specs.State.{State, standing, top, given, spent};
ghost use Rattle.machine_code.specs.Row.{row, answered, fetched, put, stored, entered, called, returned};
ghost use Rattle.ckpt_base.specs.Event as run;
ghost use Rattle.machine_code.specs.Run.{World, world, next_row, Reaches};
ghost use Rattle.paged_machine.specs.MachineView.{MachineView, live_after, at_state, after_done};
ghost use Rattle.paged_machine.specs.Standing.{StandsIn, StandsBy};
ghost use Rattle.paged_machine.specs.Fitting.{FitTogether};
ghost use Rattle.paged_machine.specs.Rank.{Nearer, Falls, rank, rank_limit};
ghost use Rattle.paged_machine.specs.Ready.{Ready, CallFits, IsCell};
ghost use Rattle.paged_machine.specs.RunOn as spec;
ghost use Rattle.paged_machine.specs.Rest.{Shrinks, rest};
ghost use Rattle.paged_machine.specs.Stepped.{Stepped, DoneBy};
ghost use Rattle.paged_machine.specs.RunOn.{Answers, GoesOn, telling, done_of, ticks_of, live_behind};

use crate::pointer::{cell, moved, moved_back};
use crate::stack::{Locals, Stack};
use crate::steps::Steps;
use ckpt_base::{NoMemory, Trap, word};
use dirty_pages::Pages;
use machine_code::{Caller, Code, Event, Instr};
use page_frames::Frames;
use std::alloc::Global;
use std::marker::Model;
use std::sync::ledger::Ledger;

/// How many calls can be active beside `main`.
const CALLS: usize = 1000;

/// A machine that runs a code. Contracts see where it stands, whether it can go on, and its rooms.
#[derive(Drop)]
pub struct Machine {
    place: usize,
    operands: Stack,
    below: usize,
    locals: Locals,
    locals_below: usize,
    callers: Vec<Caller>,
    depth: usize,
    ticks: u64,
    live: bool,
}

impl Model for Machine {
    ghost use Rattle.std.specs.Prelude.{◌≤◌, ◌≡◌, vec_len};
    ghost use Rattle.paged_machine.specs.MachineView.{MachineView, tops};

    ghost Value = { MachineView };

    ghost view = { λ m. record { state = record { place = m.place; operands = m.operands.items; below = m.below; locals = m.locals.items; locals_below = m.locals_below; callers = tops m.callers.items m.depth; ticks = m.ticks }; live = m.live; operand_room = m.operands.room; local_room = m.locals.room } };

    ghost invariant = { λ m. (m.depth ≤ 1000) × (vec_len m.callers ≡ 1000) };
}

impl Machine {
    /// A machine before instruction 0, with 0 ticks and room for the operands and locals of `main` and of 1,000 calls.
    pub fn new(alloc: Global, code: &Code) -> Result<Machine, NoMemory>
        requires valid { IsValid code.now }
        ensures state { IfOk result (λ m. m.state ≡ standing 0 0) }
        ensures live { IfOk result (λ m. m.live ≡ true) }
        ensures stands { IfOk result (λ m. StandsIn code.now m) }
    {
        let none = Caller {
            place: 0,
            below: 0,
            locals_below: 0,
        };
        Ok(Machine {
            place: 0,
            operands: Stack::new(alloc, code.stack() as usize * (CALLS + 1))?,
            below: 0,
            locals: Locals::new(alloc, code.most_locals() as usize * (CALLS + 1))?,
            locals_below: 0,
            callers: vec![in alloc; none; CALLS]?,
            depth: 0,
            ticks: 0,
            live: true,
        })
    }

    /// Stands after the checkpoint of a node, with no call active and after this many ticks.
    pub fn resume(&mut self, code: &Code, node: u32, ticks: u64)
        requires stands { StandsIn code.now self.old }
        requires there { (q : ℕ) × IsTrue (has_checkpoint code.now node q) }
        ensures state { (q : ℕ) → IsTrue (has_checkpoint code.now node q) → self.new.state ≡ standing q ticks }
        ensures live { self.new.live ≡ true }
        ensures stands { StandsIn code.now self.new }
    {
        if let Some(place) = code.place_after(node) {
            self.stand_at(place as usize, ticks);
        }
    }

    /// Does the next instruction, by its row, and answers what came of it.
    ///
    /// `WriteFault` comes exactly where the instruction would write a protected page, and `WantsInput` exactly at `In`; nothing has changed then.
    /// After `Ended` and `Trapped` the machine is not live.
    #[inline(always)]
    pub fn step<L: Ledger>(
        &mut self,
        code: &Code,
        frames: &mut Frames,
        pages: &Pages,
        steps: &mut Steps<L>,
    ) -> Event
        requires live { self.old.live ≡ true }
        requires stands { StandsIn code.now self.old }
        requires fit { FitTogether code.now frames.old pages.now }
        requires ticks { slice_get code.now.instrs self.old.state.place ≡ Some Instr.Tick → self.old.state.ticks < 2 ^ 64 - 1 }
        ensures state { self.new.state ≡ (next_row code.now (is_protected pages.now) self.old.state frames.old).state }
        ensures memory { frames.new ≡ (next_row code.now (is_protected pages.now) self.old.state frames.old).memory }
        ensures event { result ≡ (next_row code.now (is_protected pages.now) self.old.state frames.old).event }
        ensures live { self.new.live ≡ live_after true result }
        ensures steps { steps.new + self.old.state.ticks ≡ steps.old + self.new.state.ticks }
        ensures stands { StandsIn code.now self.new }
        ensures size { length frames.new ≡ length frames.old }
        ensures spared { (cell : ℕ) → is_protected pages.now (cell / 512) ≡ true → slice_index frames.new cell ≡ slice_index frames.old cell }
        ensures reaches { (w : World) (input : List ℕ) (events : List run.Event) → Reaches code.now w (world self.old.state frames.old input events) → Reaches code.now w (world self.new.state frames.new input (events ++ (next_row code.now (is_protected pages.now) self.old.state frames.old).shown)) }
        ensures asked { result ≡ Event.WantsInput → slice_get code.now.instrs self.new.state.place ≡ Some Instr.In }
        ensures fault { (p : ℕ) → result ≡ Event.WriteFault p → (p < length pages.now.dirty) × (is_protected pages.now p ≡ true) }
        ensures falls { Falls code.now self.old.state result self.new.state }
        ensures limited { rank code.now self.new.state ≤ rank_limit code.now }
        ensures ticked { self.new.state.ticks ≡ self.old.state.ticks + ticks_of result }
        ensures answer { Answers code.now pages.now self.new.state frames.new (telling result) }
    {
        if let Some(event) = self.turn(code, frames, pages, u64::MAX, steps) {
            return event;
        }
        Event::Ran
    }

    /// Does instructions one after another, until one answers something else than `Ran` or `Ticked`: that is the answer. None comes exactly where
    /// the next instruction would take a tick and `until` were taken already.
    ///
    /// It is the run of `step`s, in one call. After each answer less is left of the run to `until`, but after a write fault or a wanted input,
    /// which its caller serves.
    #[inline(always)]
    pub fn run_on<L: Ledger>(
        &mut self,
        code: &Code,
        frames: &mut Frames,
        pages: &Pages,
        until: u64,
        steps: &mut Steps<L>,
    ) -> Option<Event>
        requires live { self.old.live ≡ true }
        requires stands { StandsIn code.now self.old }
        requires fit { FitTogether code.now frames.old pages.now }
        ensures live { self.new.live ≡ live_behind result }
        ensures stands { StandsIn code.now self.new }
        ensures size { length frames.new ≡ length frames.old }
        ensures spared { (cell : ℕ) → is_protected pages.now (cell / 512) ≡ true → slice_index frames.new cell ≡ slice_index frames.old cell }
        ensures steps { steps.new + self.old.state.ticks ≡ steps.old + self.new.state.ticks }
        ensures within { self.new.state.ticks ≤ max self.old.state.ticks until }
        ensures stopped { result ≡ None → (slice_get code.now.instrs self.new.state.place ≡ Some Instr.Tick) × (until ≤ self.new.state.ticks) }
        ensures goes { GoesOn code.now (is_protected pages.now) self.old.state frames.old result self.new.state frames.new }
        ensures answer { Answers code.now pages.now self.new.state frames.new result }
        ensures shrinks { Shrinks code.now until self.old.state result self.new.state }
    {
        let mut last = Some(Event::Ran);
        'turns: while goes_on(last) {
            last = self.turn(code, frames, pages, until, steps);
        }
        last
    }

    /// Does instructions like `run_on`, but at most `left` of them, and takes from `left` those that it did. None comes also where none is left.
    ///
    /// A write fault, a wanted input, the end and a trap are not done, so they take nothing.
    #[inline(always)]
    pub fn run_for<L: Ledger>(
        &mut self,
        code: &Code,
        frames: &mut Frames,
        pages: &Pages,
        until: u64,
        left: &mut u64,
        steps: &mut Steps<L>,
    ) -> Option<Event>
        requires live { self.old.live ≡ true }
        requires stands { StandsIn code.now self.old }
        requires fit { FitTogether code.now frames.old pages.now }
        ensures live { self.new.live ≡ live_behind result }
        ensures stands { StandsIn code.now self.new }
        ensures size { length frames.new ≡ length frames.old }
        ensures spared { (cell : ℕ) → is_protected pages.now (cell / 512) ≡ true → slice_index frames.new cell ≡ slice_index frames.old cell }
        ensures steps { steps.new + self.old.state.ticks ≡ steps.old + self.new.state.ticks }
        ensures within { self.new.state.ticks ≤ max self.old.state.ticks until }
        ensures stopped { result ≡ None → (left.new ≡ 0) ⊎ ((slice_get code.now.instrs self.new.state.place ≡ Some Instr.Tick) × (until ≤ self.new.state.ticks)) }
        ensures goes { (goes : GoesOn code.now (is_protected pages.now) self.old.state frames.old result self.new.state frames.new) × (left.old ≡ goes.count + left.new) }
        ensures answer { Answers code.now pages.now self.new.state frames.new result }
        ensures paid { rest code.now until self.new.state + left.old ≤ rest code.now until self.old.state + left.new }
    {
        let mut rest = *left;
        let mut last = Some(Event::Ran);
        'turns: while is_left(rest, last) {
            rest -= 1;
            last = self.turn(code, frames, pages, until, steps);
        }
        *left = rest + not_done(last);
        told(last)
    }

    /// Answers a `WantsInput` with a value, and goes on.
    pub fn give(&mut self, code: &Code, v: i64)
        requires live { self.old.live ≡ true }
        requires stands { StandsIn code.now self.old }
        requires asked { slice_get code.now.instrs self.old.state.place ≡ Some Instr.In }
        ensures exact { self.new ≡ at_state self.old (given self.old.state 0 (word_of v)) }
        ensures stands { StandsIn code.now self.new }
        ensures falls { Nearer code.now self.old.state self.new.state }
        ensures limited { rank code.now self.new.state ≤ rank_limit code.now }
        ensures shrinks { (until : ℕ) → rest code.now until self.new.state < rest code.now until self.old.state }
    {
        prove!(self.place < code.len());
        self.push(word::word_of(v));
    }

    /// Whether the next instruction takes a tick.
    #[inline(always)]
    pub fn at_tick(&self, code: &Code) -> bool
        requires stands { StandsIn code.now self.now }
        ensures answer { IsTrue result ↔ (slice_get code.now.instrs self.now.state.place ≡ Some Instr.Tick) }
    {
        matches!(code.fetch(self.place), Instr::Tick)
    }

    /// How many ticks were taken.
    #[inline(always)]
    pub fn ticks(&self) -> u64
        ensures answer { result ≡ self.now.state.ticks }
    {
        self.ticks
    }

    /// Whether the machine has neither ended nor trapped.
    #[inline(always)]
    pub fn is_live(&self) -> bool
        ensures answer { result ≡ self.now.live }
    {
        self.live
    }
}

impl Machine {
    /// Does the next instruction, but a tick past `until`: then the answer is None.
    #[inline(always)]
    fn turn<L: Ledger>(
        &mut self,
        code: &Code,
        frames: &mut Frames,
        pages: &Pages,
        until: u64,
        steps: &mut Steps<L>,
    ) -> Option<Event>
        requires live { self.old.live ≡ true }
        requires stands { StandsIn code.now self.old }
        requires fit { FitTogether code.now frames.old pages.now }
        ensures did { IfSome result (λ event. Stepped code.now pages.now self.old frames.old event self.new frames.new) }
        ensures steps { steps.new + self.old.state.ticks ≡ steps.old + self.new.state.ticks }
        ensures below { IfSome result (λ _. slice_get code.now.instrs self.old.state.place ≡ Some Instr.Tick → self.old.state.ticks < until) }
        ensures stopped { IsNone result → (slice_get code.now.instrs self.old.state.place ≡ Some Instr.Tick) × (until ≤ self.old.state.ticks) × (self.new ≡ self.old) × (frames.new ≡ frames.old) }
    {
        self.act(code, frames, pages, until, steps)
    }

    /// Does the next instruction, but a tick past `until`: then the answer is None, and nothing has changed.
    #[inline(always)]
    fn act<L: Ledger>(
        &mut self,
        code: &Code,
        frames: &mut Frames,
        pages: &Pages,
        until: u64,
        steps: &mut Steps<L>,
    ) -> Option<Event>
        requires ready { (i : Instr) × Ready code.now self.old (length frames.old) i }
        requires fit { FitTogether code.now frames.old pages.now }
        ensures row { IfSome result (λ e. (i : Instr) → slice_get code.now.instrs self.old.state.place ≡ Some i → DoneBy (row code.now (is_protected pages.now) self.old.state frames.old i) self.old self.new frames.new e) }
        ensures steps { steps.new + self.old.state.ticks ≡ steps.old + self.new.state.ticks }
        ensures below { IfSome result (λ _. slice_get code.now.instrs self.old.state.place ≡ Some Instr.Tick → self.old.state.ticks < until) }
        ensures stopped { IsNone result → (slice_get code.now.instrs self.old.state.place ≡ Some Instr.Tick) × (until ≤ self.old.state.ticks) × (self.new ≡ self.old) × (frames.new ≡ frames.old) }
    {
        match next(code, self, frames) {
            Instr::Tick => self.tick_below(until, steps),
            Instr::Num(n) => Some(self.push(word::word_of(n))),
            Instr::Addr(o) => Some(self.push((o as u64 + 1) * 0x1_0000_0000)),
            Instr::LoadC(c) => Some(self.push(frames.word(c))),
            Instr::StoreC(c) => Some(self.store(frames, pages, 1, c)),
            Instr::LoadL(i) => Some(self.load_local(i)),
            Instr::StoreL(i) => Some(self.store_local(i)),
            Instr::Move => Some(self.answer(2, moved(code, self.word(1), self.word(0)))),
            Instr::Back => Some(self.answer(2, moved_back(code, self.word(1), self.word(0)))),
            Instr::Fetch => Some(self.fetch(frames, cell(code, self.word(0)))),
            Instr::Put => Some(self.put(frames, pages, cell(code, self.word(1)))),
            Instr::Add => Some(self.replace(2, word::sum(self.word(1), self.word(0)))),
            Instr::Sub => Some(self.replace(2, word::difference(self.word(1), self.word(0)))),
            Instr::Mul => Some(self.replace(2, word::product(self.word(1), self.word(0)))),
            Instr::Div => Some(self.answer(2, word::quotient(self.word(1), self.word(0)))),
            Instr::Rem => Some(self.answer(2, word::remainder(self.word(1), self.word(0)))),
            Instr::Shl => Some(self.answer(2, word::left_shift(self.word(1), self.word(0)))),
            Instr::Shr => Some(self.answer(2, word::right_shift(self.word(1), self.word(0)))),
            Instr::And => Some(self.replace(2, word::and(self.word(1), self.word(0)))),
            Instr::Or => Some(self.replace(2, word::or(self.word(1), self.word(0)))),
            Instr::Xor => Some(self.replace(2, word::xor(self.word(1), self.word(0)))),
            Instr::Neg => Some(self.replace(1, word::negation(self.word(0)))),
            Instr::Not => Some(self.replace(1, word::truth(!word::holds(self.word(0))))),
            Instr::Inv => Some(self.replace(1, word::inverse(self.word(0)))),
            Instr::Test => Some(self.replace(1, word::truth(word::holds(self.word(0))))),
            Instr::Eq => Some(self.compare(word::is_equal(self.word(1), self.word(0)))),
            Instr::Ne => Some(self.compare(!word::is_equal(self.word(1), self.word(0)))),
            Instr::Lt => Some(self.compare(word::is_less(self.word(1), self.word(0)))),
            Instr::Le => Some(self.compare(word::is_at_most(self.word(1), self.word(0)))),
            Instr::Gt => Some(self.compare(word::is_less(self.word(0), self.word(1)))),
            Instr::Ge => Some(self.compare(word::is_at_most(self.word(0), self.word(1)))),
            Instr::Jump(t) => Some(self.jump(t)),
            Instr::JumpZ(t) => Some(self.jump_where_zero(t)),
            Instr::Call(f) => Some(self.call(function(code, f))),
            Instr::Ret => Some(self.ret()),
            Instr::Drop => Some(self.spend(1, Event::Ran)),
            Instr::OutC => Some(self.spend(1, Event::Out(word::low_byte(self.word(0))))),
            Instr::OutB(b) => Some(self.spend(0, Event::Out(b))),
            Instr::OutN(d) => Some(self.spend(0, number_told(self.word(d as usize)))),
            Instr::In => Some(Event::WantsInput),
            Instr::Ckpt(n) => Some(self.spend(0, Event::Checkpoint(n))),
            Instr::Excl(k) => Some(self.spend(0, Event::Exclude(k))),
        }
    }

    /// Takes a tick, but none past `until`.
    #[inline(always)]
    fn tick_below<L: Ledger>(&mut self, until: u64, steps: &mut Steps<L>) -> Option<Event>
        requires place { self.old.state.place < 2 ^ 63 }
        ensures machine { IfSome result (λ e. (self.new ≡ at_state self.old (record self.old.state { place = self.old.state.place + 1; ticks = self.old.state.ticks + 1 })) × (e ≡ Event.Ticked)) }
        ensures steps { steps.new + self.old.state.ticks ≡ steps.old + self.new.state.ticks }
        ensures below { IfSome result (λ _. self.old.state.ticks < until) }
        ensures stopped { IsNone result → (until ≤ self.old.state.ticks) × (self.new ≡ self.old) }
    {
        if self.ticks >= until {
            return None;
        }
        Some(self.tick(steps))
    }

    /// The operand that stands k below the topmost.
    #[inline(always)]
    fn word(&self, k: usize) -> u64
        requires { k < length self.now.state.operands }
        ensures { result ≡ top self.now.state k }
    {
        self.operands.word(k)
    }

    #[inline(always)]
    fn tick<L: Ledger>(&mut self, steps: &mut Steps<L>) -> Event
        requires place { self.old.state.place < 2 ^ 63 }
        requires ticks { self.old.state.ticks < 2 ^ 64 - 1 }
        ensures machine { self.new ≡ at_state self.old (record self.old.state { place = self.old.state.place + 1; ticks = self.old.state.ticks + 1 }) }
        ensures event { result ≡ Event.Ticked }
        ensures steps { steps.new ≡ steps.old + 1 }
    {
        self.place += 1;
        self.ticks += 1;
        steps.tick();
        Event::Ticked
    }

    /// Puts a word in the place of the n topmost operands.
    #[inline(always)]
    fn replace(&mut self, n: usize, v: u64) -> Event
        requires enough { n ≤ length self.old.state.operands }
        requires room { length self.old.state.operands < self.old.operand_room + n }
        requires place { self.old.state.place < 2 ^ 63 }
        ensures machine { self.new ≡ at_state self.old (given self.old.state n v) }
        ensures event { result ≡ Event.Ran }
    {
        self.operands.replace(n, v);
        self.place += 1;
        Event::Ran
    }

    /// Puts 1 or 0 in the place of the two topmost operands.
    #[inline(always)]
    fn compare(&mut self, holds: bool) -> Event
        requires enough { 2 ≤ length self.old.state.operands }
        requires room { length self.old.state.operands < self.old.operand_room + 2 }
        requires place { self.old.state.place < 2 ^ 63 }
        ensures machine { self.new ≡ at_state self.old (given self.old.state 2 (truth_word holds)) }
        ensures event { result ≡ Event.Ran }
    {
        self.replace(2, word::truth(holds))
    }

    #[inline(always)]
    fn push(&mut self, v: u64) -> Event
        requires room { length self.old.state.operands < self.old.operand_room }
        requires place { self.old.state.place < 2 ^ 63 }
        ensures machine { self.new ≡ at_state self.old (given self.old.state 0 v) }
        ensures event { result ≡ Event.Ran }
    {
        self.replace(0, v)
    }

    /// Spends the n topmost operands and answers an event.
    #[inline(always)]
    fn spend(&mut self, n: usize, event: Event) -> Event
        requires enough { n ≤ length self.old.state.operands }
        requires place { self.old.state.place < 2 ^ 63 }
        ensures machine { self.new ≡ at_state self.old (spent self.old.state n) }
        ensures event { result ≡ event }
    {
        self.operands.cut(n);
        self.place += 1;
        event
    }

    #[inline(always)]
    fn trap(&mut self, trap: Trap) -> Event
        ensures machine { self.new ≡ record self.old { live = false } }
        ensures event { result ≡ Event.Trapped (trap_number trap) }
    {
        self.live = false;
        Event::Trapped(trap.number())
    }

    #[inline(always)]
    fn answer(&mut self, n: usize, a: Result<u64, Trap>) -> Event
        requires enough { n ≤ length self.old.state.operands }
        requires room { length self.old.state.operands < self.old.operand_room + n }
        requires place { self.old.state.place < 2 ^ 63 }
        ensures machine { self.new ≡ after_done self.old (answered self.old.state [] n a) }
        ensures event { result ≡ (answered self.old.state [] n a).event }
    {
        match a {
            Ok(v) => self.replace(n, v),
            Err(trap) => self.trap(trap),
        }
    }

    #[inline(always)]
    fn load_local(&mut self, i: u32) -> Event
        requires local { self.old.state.locals_below + i < length self.old.state.locals }
        requires room { length self.old.state.operands < self.old.operand_room }
        requires place { self.old.state.place < 2 ^ 63 }
        ensures machine { self.new ≡ at_state self.old (given self.old.state 0 (slice_index self.old.state.locals (self.old.state.locals_below + i))) }
        ensures event { result ≡ Event.Ran }
    {
        let v = self.locals.get(self.locals_below, i);
        self.push(v)
    }

    #[inline(always)]
    fn store_local(&mut self, i: u32) -> Event
        requires enough { 1 ≤ length self.old.state.operands }
        requires local { self.old.state.locals_below + i < length self.old.state.locals }
        requires place { self.old.state.place < 2 ^ 63 }
        ensures machine { self.new ≡ at_state self.old (record (spent self.old.state 1) { locals = slice_set self.old.state.locals (self.old.state.locals_below + i) (top self.old.state 0) }) }
        ensures event { result ≡ Event.Ran }
    {
        let v = self.word(0);
        self.locals.set(self.locals_below, i, v);
        self.spend(1, Event::Ran)
    }

    #[inline(always)]
    fn fetch(&mut self, frames: &Frames, a: Result<u64, Trap>) -> Event
        requires enough { 1 ≤ length self.old.state.operands }
        requires room { length self.old.state.operands < self.old.operand_room + 1 }
        requires place { self.old.state.place < 2 ^ 63 }
        requires cell { IsCell (length frames.now) a }
        requires few { length frames.now ≤ 2 ^ 32 }
        ensures machine { self.new ≡ after_done self.old (fetched self.old.state frames.now a) }
        ensures event { result ≡ (fetched self.old.state frames.now a).event }
    {
        match a {
            Ok(c) => self.replace(1, frames.word(c as u32)),
            Err(trap) => self.trap(trap),
        }
    }

    #[inline(always)]
    fn put(&mut self, frames: &mut Frames, pages: &Pages, a: Result<u64, Trap>) -> Event
        requires enough { 2 ≤ length self.old.state.operands }
        requires place { self.old.state.place < 2 ^ 63 }
        requires cell { IsCell (length frames.old) a }
        requires few { length frames.old ≤ 2 ^ 32 }
        requires pages { length frames.old ≡ 512 * length pages.now.dirty }
        ensures machine { self.new ≡ after_done self.old (put (is_protected pages.now) self.old.state frames.old a) }
        ensures memory { frames.new ≡ (put (is_protected pages.now) self.old.state frames.old a).memory }
        ensures event { result ≡ (put (is_protected pages.now) self.old.state frames.old a).event }
    {
        match a {
            Ok(c) => self.store(frames, pages, 2, c as u32),
            Err(trap) => self.trap(trap),
        }
    }

    /// Writes the topmost operand into a cell and spends n operands; a fault where its page is protected.
    #[inline(always)]
    fn store(&mut self, frames: &mut Frames, pages: &Pages, n: usize, c: u32) -> Event
        requires some { 1 ≤ n }
        requires enough { n ≤ length self.old.state.operands }
        requires place { self.old.state.place < 2 ^ 63 }
        requires cell { c < length frames.old }
        requires pages { length frames.old ≡ 512 * length pages.now.dirty }
        ensures machine { self.new ≡ after_done self.old (stored (is_protected pages.now) self.old.state frames.old n c (top self.old.state 0)) }
        ensures memory { frames.new ≡ (stored (is_protected pages.now) self.old.state frames.old n c (top self.old.state 0)).memory }
        ensures event { result ≡ (stored (is_protected pages.now) self.old.state frames.old n c (top self.old.state 0)).event }
    {
        if pages.is_protected(c / 512) {
            return Event::WriteFault(c / 512);
        }
        frames.set_word(c, self.word(0));
        self.spend(n, Event::Ran)
    }

    #[inline(always)]
    fn jump(&mut self, t: u32) -> Event
        ensures machine { self.new ≡ at_state self.old (record self.old.state { place = t }) }
        ensures event { result ≡ Event.Ran }
    {
        self.place = t as usize;
        Event::Ran
    }

    #[inline(always)]
    fn jump_where_zero(&mut self, t: u32) -> Event
        requires enough { 1 ≤ length self.old.state.operands }
        requires place { self.old.state.place < 2 ^ 63 }
        ensures machine { self.new ≡ at_state self.old (record (spent self.old.state 1) { place = cond (word_holds (top self.old.state 0)) (self.old.state.place + 1) t }) }
        ensures event { result ≡ Event.Ran }
    {
        let holds = word::holds(self.word(0));
        let event = self.spend(1, Event::Ran);
        if !holds {
            self.place = t as usize;
        }
        event
    }

    /// Stands before a place with no call active and no operands.
    fn stand_at(&mut self, place: usize, ticks: u64)
        ensures { self.new ≡ record self.old { state = standing place ticks; live = true } }
    {
        self.place = place;
        self.operands.cut(self.operands.len());
        self.below = 0;
        self.locals.cut_to(0);
        self.locals_below = 0;
        self.depth = 0;
        self.ticks = ticks;
        self.live = true;
    }

    #[inline(always)]
    fn call(&mut self, f: (u32, u32, u32)) -> Event
        requires enough { parameters f + self.old.state.below ≤ length self.old.state.operands }
        requires place { self.old.state.place < 2 ^ 63 }
        requires fits { CallFits self.old f }
        ensures machine { self.new ≡ after_done self.old (called self.old.state [] (Some f)) }
        ensures event { result ≡ (called self.old.state [] (Some f)).event }
    {
        if self.depth == CALLS {
            return self.trap(Trap::TooManyCalls);
        }
        self.enter(f);
        Event::Ran
    }

    #[inline(always)]
    fn enter(&mut self, f: (u32, u32, u32))
        requires enough { parameters f ≤ length self.old.state.operands }
        requires place { self.old.state.place < 2 ^ 63 }
        requires parameters { parameters f ≤ locals f }
        requires locals { length self.old.state.locals + locals f ≤ self.old.local_room }
        requires calls { length self.old.state.callers < 1000 }
        ensures { self.new ≡ at_state self.old (entered self.old.state f) }
    {
        let parameters = f.1 as usize;
        let locals_below = self.locals.len();
        self.locals.enter(&self.operands, parameters, f.2 as usize);
        self.operands.cut(parameters);
        self.callers[self.depth] = Caller {
            place: self.place + 1,
            below: self.below,
            locals_below: self.locals_below,
        };
        self.depth += 1;
        self.below = self.operands.len();
        self.locals_below = locals_below;
        self.place = f.0 as usize;
    }

    #[inline(always)]
    fn ret(&mut self) -> Event
        requires enough { 1 + self.old.state.below ≤ length self.old.state.operands }
        requires room { length self.old.state.operands ≤ self.old.operand_room }
        requires locals { self.old.state.locals_below ≤ length self.old.state.locals }
        ensures machine { self.new ≡ after_done self.old (returned self.old.state [] self.old.state.callers) }
        ensures event { result ≡ (returned self.old.state [] self.old.state.callers).event }
    {
        let v = self.operands.word(0);
        if self.depth == 0 {
            self.live = false;
            return Event::Ended(v.cast_signed());
        }
        self.depth -= 1;
        let caller = self.callers[self.depth];
        let n = self.operands.len() - self.below;
        self.operands.replace(n, v);
        self.locals.cut_to(self.locals_below);
        self.place = caller.place;
        self.below = caller.below;
        self.locals_below = caller.locals_below;
        Event::Ran
    }
}

/// Whether a run of instructions goes on over an answer.
#[inline(always)]
fn goes_on(last: Option<Event>) -> bool
    ensures on { result ≡ true → (last ≡ Some Event.Ran) ⊎ (last ≡ Some Event.Ticked) }
    ensures over { result ≡ false → spec.told last ≡ last }
{
    match last {
        Some(Event::Ran) => true,
        Some(Event::Ticked) => true,
        _ => false,
    }
}

/// Whether a run of at most `left` instructions goes on over an answer.
#[inline(always)]
fn is_left(left: u64, last: Option<Event>) -> bool
    ensures some { result ≡ true → 0 < left }
    ensures on { result ≡ true → (last ≡ Some Event.Ran) ⊎ (last ≡ Some Event.Ticked) }
    ensures over { result ≡ false → (left ≡ 0) ⊎ (spec.told last ≡ last) }
{
    left > 0 && goes_on(last)
}

/// 1 where the instruction that answered this was not done, and else 0.
#[inline(always)]
fn not_done(last: Option<Event>) -> u64
    ensures { result + done_of last ≡ 1 }
{
    match last {
        None => 1,
        Some(Event::WriteFault(_)) => 1,
        Some(Event::WantsInput) => 1,
        Some(Event::Ended(_)) => 1,
        Some(Event::Trapped(_)) => 1,
        Some(_) => 0,
    }
}

/// The answer of a run of instructions whose last one answered this.
#[inline(always)]
fn told(last: Option<Event>) -> Option<Event>
    ensures { result ≡ spec.told last }
{
    match last {
        Some(Event::Ran) => None,
        Some(Event::Ticked) => None,
        answer => answer,
    }
}

/// The event of a number that is written.
#[inline(always)]
fn number_told(v: u64) -> Event
    ensures { result ≡ Event.OutNumber (signed v) }
{
    Event::OutNumber(word::signed(v))
}

/// The function of a number, which is there.
#[inline(always)]
fn function(code: &Code, f: u32) -> (u32, u32, u32)
    requires { f < length code.now.functions }
    ensures { slice_get code.now.functions f ≡ Some result }
{
    code.function_at(f)
}

/// The instruction at the machine's place.
#[inline(always)]
fn next(code: &Code, machine: &Machine, frames: &Frames) -> Instr
    requires { (i : Instr) × Ready code.now machine.now (length frames.now) i }
    ensures ready { Ready code.now machine.now (length frames.now) result }
    ensures place { machine.now.state.place < 2 ^ 63 }
{
    code.fetch(machine.place)
}

ghost use Rattle.std.specs.Prelude.{◌≡◌, ◌∷◌, [], ◌≤◌, ◌<◌, ◌+◌, ◌-◌, ℕ, IfOk, MatchOption, map, None, Some};
ghost use Rattle.c_tree.specs.State as spec;
ghost use Rattle.c_tree.specs.Meaning.{piece, acts, begins, tests, meaning};
ghost use Rattle.ckpt_base.specs.declared.ending.Ending.TheVariants.{Ended};
ghost use Rattle.ckpt_base.specs.Word.{signed};
ghost use Rattle.ckpt_base.specs.Run.{Run};
ghost use Rattle.c_tree.specs.Layout.{cell_count};
ghost use Rattle.c_meaning.specs.declared.evaluator.Evaluator.{Evaluator};
ghost use Rattle.c_meaning.specs.declared.work.Item.TheVariants as Item;
ghost use Rattle.c_meaning.specs.declared.work.Task.TheVariants as Task;
ghost use Rattle.c_meaning.specs.Plain.{IsPlain};
ghost use Rattle.c_meaning.specs.Working.{todo, calls, looping, turn_ways, arm_piece, last_piece, action, does_task, makes, called_progress, restored, end_item, From, Taken, Answered, Stands, Reached, ComesTo, Comes, Settled, Acted, Counted, Skipped, Passes, IsNoCall, Ends, weight, weights, last_weight, size, Lighter, Nearer};

use crate::memory::{fill, first_memory};
use crate::progress::Progress;
use crate::value::{test_value, value, values};
use crate::work::{End, Frame, Item, Loop, Next, Single, Task, Waits};
use c_tree::{Exprs, RArm, RExpr, RInit, RPlace, RStmt, Resolved};
use ckpt_base::{Ending, NoMemory, Trap, word};
use sqlite_items::{Boxed, Items};
use std::alloc::Global;
use std::mem;

/// How many calls may be active beside `main`.
const CALLS: u32 = 1000;

/// A run of a program.
#[derive(Drop)]
pub struct Evaluator<'a> {
    /// How far it has come.
    progress: Progress<'a>,
    /// What is left to do, the next thing last.
    work: Items<Item<'a>>,
}

impl<'a> Evaluator<'a> {
    /// A run that stands before the body of `main`.
    pub fn start(
        alloc: Global,
        tree: &'a Resolved,
        input: &'a [u8],
    ) -> Result<Evaluator<'a>, NoMemory>
        requires cells { cell_count tree.now ≤ 262144 }
        ensures stands { IfOk result (λ e. (n : ℕ) → Stands e n (meaning tree.now input.now n)) }
        ensures ticks { IfOk result (λ e. e.progress.ticks ≡ 0) }
    {
        let memory = first_memory(alloc, tree)?;
        let mut evaluator = Evaluator {
            progress: Progress {
                alloc,
                functions: tree.functions.as_slice(),
                memory,
                allowed: CALLS,
                input,
                output: Items::new(alloc),
                ticks: 0,
            },
            work: Items::new(alloc),
        };
        evaluator.add(Item::One(&tree.main.body))?;
        Ok(evaluator)
    }

    /// The bytes written so far.
    pub fn output(&self) -> &[u8]
        ensures answer { result.now ≡ self.now.progress.output }
    {
        self.progress.output.as_slice()
    }

    /// The ticks taken so far.
    pub fn ticks(&self) -> u64
        ensures answer { result ≡ self.now.progress.ticks }
    {
        self.progress.ticks
    }

    /// Puts an item before all that is left to do.
    #[inline(always)]
    fn add(&mut self, item: Item<'a>) -> Result<(), NoMemory>
        ensures added { IfOk result (λ _. todo self.new ≡ item.entry ∷ todo self.old) }
        ensures same { self.new.progress ≡ self.old.progress }
    {
        self.work.push(item)?;
        Ok(())
    }

    /// Takes away the next item.
    #[inline(always)]
    fn next_item(&mut self) -> Option<Item<'a>>
        ensures taken { MatchOption result (todo self.old ≡ []) (λ i. todo self.old ≡ i ∷ todo self.new) }
        ensures empty { MatchOption result (todo self.new ≡ []) (λ _. Unit {0}) }
        ensures same { self.new.progress ≡ self.old.progress }
    {
        self.work.pop()
    }

    /// Begins a statement: answers the thing in it that takes a tick, or puts its parts before what is left to do.
    #[inline(always)]
    fn enter(&mut self, stmt: &'a RStmt) -> Result<Option<Task<'a>>, NoMemory>
        ensures reached { IfOk result (λ t. (m n : ℕ) (r : Run) → From ((piece (calls self.old) stmt.now).does m) self.old n r → Reached t self.new n r) }
        ensures same { IfOk result (λ _. self.new.progress ≡ self.old.progress) }
        ensures lighter { IfOk result (λ t. Lighter t (weights (todo self.old) + size stmt.now) self.new) }
    {
        match stmt {
            RStmt::Empty => Ok(None),
            RStmt::Declare(place, expr) => Ok(Some(Task::Single(Single::Declare(place, expr)))),
            RStmt::Set(place, expr) => Ok(Some(Task::Single(Single::Set(place, expr)))),
            RStmt::Call(place, function, args) => {
                Ok(Some(Task::Call(Waits::Store(place), *function, args)))
            }
            RStmt::Input(place) => Ok(Some(Task::Single(Single::Input(place)))),
            RStmt::Return(expr) => Ok(Some(Task::Return(expr))),
            RStmt::ReturnCall(function, args) => {
                Ok(Some(Task::Call(Waits::Return, *function, args)))
            }
            RStmt::ReturnInput => Ok(Some(Task::ReturnInput)),
            RStmt::Put(expr) => Ok(Some(Task::Single(Single::Put(expr)))),
            RStmt::Print(pieces, args) => Ok(Some(Task::Single(Single::Print(pieces, args)))),
            RStmt::Checkpoint => Ok(Some(Task::Single(Single::Checkpoint))),
            RStmt::Exclude(k) => Ok(Some(Task::Single(Single::Exclude(*k)))),
            RStmt::If(arms, last) => {
                let task = self.enter_arms(arms.as_slice(), last)?;
                Ok(task)
            }
            RStmt::While(test, body) => Ok(Some(Task::Turn(plain_loop(test, body.get())))),
            RStmt::Do(body, test) => {
                self.enter_body(plain_loop(test, body.get()))?;
                Ok(None)
            }
            RStmt::For(init, test, update, body) => {
                let turn = Loop {
                    test: lent(test),
                    update: lent(update),
                    body: body.get(),
                };
                let task = self.enter_for(init, turn)?;
                Ok(Some(task))
            }
            RStmt::Block(stmts) => {
                self.add(Item::Rest(stmts.as_slice()))?;
                Ok(None)
            }
            RStmt::Break => {
                self.leave_loop()?;
                Ok(None)
            }
            RStmt::Continue => {
                self.next_turn()?;
                Ok(None)
            }
        }
    }

    /// Begins an `if`: answers the test of its first arm, or goes on with its last statement.
    #[inline(always)]
    fn enter_arms(
        &mut self,
        arms: &'a [RArm],
        last: &'a Option<Boxed<RStmt>>,
    ) -> Result<Option<Task<'a>>, NoMemory>
        ensures reached { IfOk result (λ t. (m n : ℕ) (r : Run) → From (tests (map (arm_piece (calls self.old)) arms.now) (last_piece (calls self.old) last.now) m) self.old n r → Reached t self.new n r) }
        ensures same { IfOk result (λ _. self.new.progress ≡ self.old.progress) }
        ensures lighter { IfOk result (λ t. Lighter t (weights (todo self.old) + last_weight last.now + 1) self.new) }
    {
        match arms.split_first() {
            Some((arm, more)) => Ok(Some(Task::Choose(arm, more, last))),
            None => match last {
                None => Ok(None),
                Some(stmt) => {
                    self.add(Item::One(stmt.get()))?;
                    Ok(None)
                }
            },
        }
    }

    /// Begins a `for`: answers its first statement, or its test where it has none.
    #[inline(always)]
    fn enter_for(&mut self, init: &'a Option<RInit>, turn: Loop<'a>) -> Result<Task<'a>, NoMemory>
        ensures comes { IfOk result (λ t. (m n : ℕ) (r : Run) → From (λ w. begins init.now (looping (calls self.old) turn.entry m w)) self.old n r → ComesTo t self.new n r) }
        ensures same { IfOk result (λ _. self.new.progress ≡ self.old.progress) }
    {
        match init {
            None => Ok(Task::Turn(turn)),
            Some(init) => {
                self.add(Item::Turn(turn))?;
                Ok(Task::Single(first_of(init)))
            }
        }
    }

    /// Begins the body of a loop, behind which its next turn comes.
    #[inline(always)]
    fn enter_body(&mut self, turn: Loop<'a>) -> Result<(), NoMemory>
        ensures begun { IfOk result (λ _. (m n : ℕ) (r : Run) → From (λ w. (piece (calls self.old) turn.entry.body.now).does m (turn_ways (calls self.old) turn.entry m w)) self.old n r → Stands self.new n r) }
        ensures same { IfOk result (λ _. self.new.progress ≡ self.old.progress) }
        ensures heavier { IfOk result (λ _. weights (todo self.new) ≡ weights (todo self.old) + size turn.entry.body.now + 3) }
    {
        self.add(Item::Again(turn))?;
        self.add(Item::One(turn.body))?;
        Ok(())
    }

    /// Takes away what is left of the turn of the innermost loop, and what ends the turn: the loop, or outside a loop the call.
    fn skip(&mut self) -> Option<End<'a>>
        ensures skipped { Skipped self.old self.new result }
        ensures same { self.new.progress ≡ self.old.progress }
        ensures lighter { MatchOption result (weights (todo self.new) ≤ weights (todo self.old)) (λ end. weights (todo self.new) + weight (end_item end) ≤ weights (todo self.old)) }
    {
        'items: while let Some(item) = self.next_item() {
            if let Some(end) = end_of(item) {
                return Some(end);
            }
        }
        None
    }

    /// Leaves the innermost loop.
    #[inline(always)]
    fn leave_loop(&mut self) -> Result<(), NoMemory>
        ensures left { IfOk result (λ _. (n : ℕ) (r : Run) → From (λ w. w.out_of_loop) self.old n r → Stands self.new n r) }
        ensures same { IfOk result (λ _. self.new.progress ≡ self.old.progress) }
        ensures lighter { IfOk result (λ _. weights (todo self.new) ≤ weights (todo self.old)) }
    {
        match self.skip() {
            None => Ok(()),
            Some(End::Loop(_)) => Ok(()),
            Some(End::Call(frame)) => {
                self.add(Item::Back(frame))?;
                Ok(())
            }
        }
    }

    /// Goes on with the next turn of the innermost loop.
    #[inline(always)]
    fn next_turn(&mut self) -> Result<(), NoMemory>
        ensures again { IfOk result (λ _. (n : ℕ) (r : Run) → From (λ w. w.again) self.old n r → Stands self.new n r) }
        ensures same { IfOk result (λ _. self.new.progress ≡ self.old.progress) }
        ensures lighter { IfOk result (λ _. weights (todo self.new) ≤ weights (todo self.old)) }
    {
        match self.skip() {
            None => Ok(()),
            Some(End::Loop(turn)) => {
                self.add(Item::Again(turn))?;
                Ok(())
            }
            Some(End::Call(frame)) => {
                self.add(Item::Back(frame))?;
                Ok(())
            }
        }
    }

    /// Goes on with an item that was taken away.
    #[inline(always)]
    fn take(&mut self, item: Item<'a>) -> Result<Next<'a>, NoMemory>
        ensures comes { IfOk result (λ t. (n : ℕ) (r : Run) → Taken item.entry self.old n r → Comes t self.new n r) }
        ensures ticks { IfOk result (λ _. self.new.progress.ticks ≡ self.old.progress.ticks) }
        ensures nearer { IfOk result (λ t. Nearer t (weights (todo self.old) + weight item.entry) self.new) }
    {
        match item {
            Item::One(stmt) => {
                let task = self.enter(stmt)?;
                Ok(next(task))
            }
            Item::Rest(stmts) => match stmts.split_first() {
                None => Ok(Next::On),
                Some((stmt, more)) => {
                    self.add(Item::Rest(more))?;
                    let task = self.enter(stmt)?;
                    Ok(next(task))
                }
            },
            Item::Tests(arms, last) => {
                let task = self.enter_arms(arms, last)?;
                Ok(next(task))
            }
            Item::Turn(turn) => Ok(Next::Task(Task::Turn(turn))),
            Item::Again(turn) => match turn.update {
                None => Ok(Next::Task(Task::Turn(turn))),
                Some(update) => {
                    self.add(Item::Turn(turn))?;
                    Ok(Next::Task(Task::Single(Single::Set(&update.place, &update.value))))
                }
            },
            Item::Back(frame) => match self.resume(frame, 0) {
                None => Ok(Next::On),
                Some(ending) => Ok(Next::Over(ending)),
            },
        }
    }

    /// Goes on to the next thing that takes a tick, or to the end of the run where it comes before.
    fn settle(&mut self) -> Result<Result<Task<'a>, Ending>, NoMemory>
        ensures settled { IfOk result (λ t. (n : ℕ) (r : Run) → Stands self.old n r → Settled t self.new n r) }
        ensures ticks { IfOk result (λ _. self.new.progress.ticks ≡ self.old.progress.ticks) }
    {
        'items: while let Some(item) = self.next_item() {
            match self.take(item)? {
                Next::On => {}
                Next::Task(task) => return Ok(Ok(task)),
                Next::Over(ending) => return Ok(Err(ending)),
            }
        }
        Ok(Err(Ending::Ended(0)))
    }

    /// Does a task that was given its tick.
    #[inline(always)]
    fn act(&mut self, task: Task<'a>) -> Result<Option<Ending>, NoMemory>
        ensures acted { IfOk result (λ end. (m n : ℕ) (r : Run) → From (does_task (calls self.old) task.entry m) self.old n r → Acted end self.new n r) }
        ensures ticks { IfOk result (λ _. self.new.progress.ticks ≡ self.old.progress.ticks) }
    {
        match task {
            Task::Single(single) => match self.progress.perform(single)? {
                Err(trap) => Ok(Some(Ending::Trapped(trap.number()))),
                Ok(()) => Ok(None),
            },
            Task::Call(waits, function, args) => {
                let end = self.make_call(waits, function, args)?;
                Ok(end)
            }
            Task::Return(expr) => match value(expr, &self.progress.memory) {
                Err(trap) => Ok(Some(Ending::Trapped(trap.number()))),
                Ok(a) => {
                    let end = self.give_back(a);
                    Ok(end)
                }
            },
            Task::ReturnInput => {
                let a = self.progress.take();
                let end = self.give_back(a);
                Ok(end)
            }
            Task::Choose(arm, more, last) => {
                let end = self.choose(arm, more, last)?;
                Ok(end)
            }
            Task::Turn(turn) => {
                let end = self.turn(turn)?;
                Ok(end)
            }
        }
    }

    /// Takes a tick where one is wanted and below the bound; answers how the run ends where it is over.
    #[inline(always)]
    fn step(&mut self, until: u64) -> Result<Option<Ending>, NoMemory>
        requires bound { self.old.progress.ticks ≤ until }
        ensures stepped { IfOk result (λ end. (r : Run) → Stands self.old (until - self.old.progress.ticks) r → Acted end self.new (until - self.new.progress.ticks) r) }
        ensures counted { IfOk result (λ end. Counted end self.old self.new until) }
    {
        match self.settle()? {
            Err(ending) => Ok(Some(ending)),
            Ok(task) => {
                if self.progress.ticks == until {
                    return Ok(Some(Ending::Going));
                }
                self.progress.ticks += 1;
                let end = self.act(task)?;
                Ok(end)
            }
        }
    }

    /// Runs to the end, or until another tick would be needed after `until` ticks.
    pub fn run(&mut self, until: u64) -> Result<Ending, NoMemory>
        requires start { self.old.progress.ticks ≡ 0 }
        ensures answer { IfOk result (λ ending. (r : Run) → Stands self.old until r → IsPlain self.new.progress.output ending self.new.progress.ticks r) }
    {
        'steps: loop {
            if let Some(ending) = self.step(until)? {
                return Ok(ending);
            }
        }
    }

    /// Tests an arm of an `if`.
    #[inline(always)]
    fn choose(
        &mut self,
        arm: &'a RArm,
        more: &'a [RArm],
        last: &'a Option<Boxed<RStmt>>,
    ) -> Result<Option<Ending>, NoMemory>
        ensures acted { IfOk result (λ end. (m n : ℕ) (r : Run) → From (does_task (calls self.old) (Task.Choose arm.entry more.entry last.entry) m) self.old n r → Acted end self.new n r) }
        ensures same { IfOk result (λ _. self.new.progress ≡ self.old.progress) }
    {
        match value(&arm.test, &self.progress.memory) {
            Err(trap) => Ok(Some(Ending::Trapped(trap.number()))),
            Ok(a) => {
                if word::holds(a) {
                    self.add(Item::One(&arm.body))?;
                    return Ok(None);
                }
                self.add(Item::Tests(more, last))?;
                Ok(None)
            }
        }
    }

    /// Tests a loop.
    #[inline(always)]
    fn turn(&mut self, turn: Loop<'a>) -> Result<Option<Ending>, NoMemory>
        ensures acted { IfOk result (λ end. (m n : ℕ) (r : Run) → From (does_task (calls self.old) (Task.Turn turn.entry) m) self.old n r → Acted end self.new n r) }
        ensures same { IfOk result (λ _. self.new.progress ≡ self.old.progress) }
    {
        match test_value(turn.test, &self.progress.memory) {
            Err(trap) => Ok(Some(Ending::Trapped(trap.number()))),
            Ok(a) => {
                if !word::holds(a) {
                    return Ok(None);
                }
                self.enter_body(turn)?;
                Ok(None)
            }
        }
    }

    /// Evaluates the arguments of a call, and makes it.
    fn make_call(
        &mut self,
        waits: Waits<'a>,
        function: u32,
        args: &'a Exprs,
    ) -> Result<Option<Ending>, NoMemory>
        ensures acted { IfOk result (λ end. (m n : ℕ) (r : Run) → From (does_task (calls self.old) (Task.Call waits.entry function args.entry) m) self.old n r → Acted end self.new n r) }
        ensures ticks { IfOk result (λ _. self.new.progress.ticks ≡ self.old.progress.ticks) }
    {
        match values(self.progress.alloc, args.as_slice(), &self.progress.memory)? {
            Err(trap) => Ok(Some(Ending::Trapped(trap.number()))),
            Ok(args) => {
                let end = self.call(waits, function, args)?;
                Ok(end)
            }
        }
    }

    /// Makes a call: the function's parameters are given their values, and its other locals 0.
    fn call(
        &mut self,
        waits: Waits<'a>,
        function: u32,
        args: Items<u64>,
    ) -> Result<Option<Ending>, NoMemory>
        ensures acted { IfOk result (λ end. (n : ℕ) (r : Run) → From (makes (calls self.old) waits.entry function args) self.old n r → Acted end self.new n r) }
        ensures ticks { IfOk result (λ _. self.new.progress.ticks ≡ self.old.progress.ticks) }
    {
        if self.progress.allowed == 0 {
            return Ok(Some(Ending::Trapped(Trap::TooManyCalls.number())));
        }
        match self.progress.functions.get(function as usize) {
            None => Ok(Some(Ending::Trapped(Trap::TooManyCalls.number()))),
            Some(function) => {
                let locals = entry_locals(function.locals.len(), args)?;
                let frame = self.suspend(waits, locals);
                self.add(Item::Back(frame))?;
                self.add(Item::One(&function.body))?;
                Ok(None)
            }
        }
    }

    /// Gives the variables to a function that is called; answers the one that makes the call.
    #[inline(always)]
    fn suspend(&mut self, waits: Waits<'a>, locals: Items<u64>) -> Frame<'a>
        requires more { 0 < self.old.progress.allowed }
        ensures waits { result.waits ≡ waits.entry }
        ensures locals { result.locals ≡ self.old.progress.memory.locals }
        ensures allowed { result.allowed ≡ self.old.progress.allowed }
        ensures now { self.new.progress ≡ called_progress locals self.old.progress }
        ensures work { self.new.work ≡ self.old.work }
    {
        let allowed = self.progress.allowed;
        let callers = mem::replace(&mut self.progress.memory.locals, locals);
        self.progress.allowed = allowed - 1;
        Frame {
            waits,
            locals: callers,
            allowed,
        }
    }

    /// Ends the innermost call with its answer; answers how the run ends where it is over.
    fn give_back(&mut self, a: u64) -> Option<Ending>
        ensures acted { (n : ℕ) (r : Run) → From (λ w. w.back a) self.old n r → Acted result self.new n r }
        ensures ticks { self.new.progress.ticks ≡ self.old.progress.ticks }
        ensures lighter { weights (todo self.new) ≤ weights (todo self.old) }
    {
        'calls: while let Some(waits) = self.end_call() {
            match waits {
                Waits::Return => {}
                Waits::Store(place) => return self.store_answer(place, a),
            }
        }
        Some(ended(a))
    }

    /// Takes away what is left of the innermost call; answers what waits for its answer, and None outside calls.
    fn end_call(&mut self) -> Option<Waits<'a>>
        ensures ends { (a n : ℕ) (r : Run) → From (λ w. w.back a) self.old n r → Ends result a self.new n r }
        ensures ticks { self.new.progress.ticks ≡ self.old.progress.ticks }
        ensures lighter { MatchOption result (weights (todo self.new) ≤ weights (todo self.old)) (λ _. weights (todo self.new) < weights (todo self.old)) }
    {
        'items: while let Some(item) = self.next_item() {
            if let Some(frame) = frame_of(item) {
                return Some(self.restore(frame));
            }
        }
        None
    }

    /// Goes on with a function that made a call, which has its answer.
    #[inline(always)]
    fn resume(&mut self, frame: Frame<'a>, a: u64) -> Option<Ending>
        ensures acted { (n : ℕ) (r : Run) → Answered frame.entry a self.old n r → Acted result self.new n r }
        ensures ticks { self.new.progress.ticks ≡ self.old.progress.ticks }
        ensures lighter { weights (todo self.new) ≤ weights (todo self.old) }
    {
        match self.restore(frame) {
            Waits::Return => self.give_back(a),
            Waits::Store(place) => self.store_answer(place, a),
        }
    }

    /// Stores the answer of a call; answers how the run ends where that traps.
    #[inline(always)]
    fn store_answer(&mut self, place: &'a Option<RPlace>, a: u64) -> Option<Ending>
        ensures acted { (n : ℕ) (r : Run) → From (λ w. acts (spec.store place.entry.now a) w.next) self.old n r → Acted result self.new n r }
        ensures ticks { self.new.progress.ticks ≡ self.old.progress.ticks }
        ensures work { self.new.work ≡ self.old.work }
    {
        match self.progress.store(place, a) {
            Err(trap) => Some(Ending::Trapped(trap.number())),
            Ok(()) => None,
        }
    }

    /// Gives the variables back to a function that made a call; answers what waits for the answer.
    #[inline(always)]
    fn restore(&mut self, frame: Frame<'a>) -> Waits<'a>
        ensures waits { result ≡ frame.entry.waits }
        ensures now { self.new.progress ≡ restored frame.entry self.old.progress }
        ensures work { self.new.work ≡ self.old.work }
    {
        self.progress.memory.locals = frame.locals;
        self.progress.allowed = frame.allowed;
        frame.waits
    }
}

/// What the item ends, if it ends a turn or a call.
#[inline(always)]
fn end_of(item: Item<'_>) -> Option<End<'_>>
    ensures answer { MatchOption result (Passes item.entry) (λ end. item.entry ≡ end_item end) }
{
    match item {
        Item::Again(turn) => Some(End::Loop(turn)),
        Item::Back(frame) => Some(End::Call(frame)),
        Item::One(_) | Item::Rest(_) | Item::Tests(_, _) | Item::Turn(_) => None,
    }
}

/// The call that the item ends, if it ends one.
#[inline(always)]
fn frame_of(item: Item<'_>) -> Option<Frame<'_>>
    ensures answer { MatchOption result (IsNoCall item.entry) (λ f. item.entry ≡ Item.Back f) }
{
    match item {
        Item::Back(frame) => Some(frame),
        Item::One(_) | Item::Rest(_) | Item::Tests(_, _) | Item::Turn(_) | Item::Again(_) => None,
    }
}

/// What a `for` begins with, as a statement.
#[inline(always)]
fn first_of(init: &RInit) -> Single<'_>
    ensures answer { (m : ℕ) → action result m ≡ spec.begin init.now }
{
    match init {
        RInit::Declare(init) => Single::Set(&init.place, &init.value),
        RInit::Set(init) => Single::Set(&init.place, &init.value),
    }
}

/// What comes next, where a statement was begun.
#[inline(always)]
fn next(task: Option<Task<'_>>) -> Next<'_>
    ensures comes { (e : Evaluator) (n : ℕ) (r : Run) → Reached task.entry e n r → Comes result e n r }
    ensures nearer { (e : Evaluator) (n : ℕ) → Lighter task.entry n e → Nearer result n e }
{
    match task {
        None => Next::On,
        Some(task) => Next::Task(task),
    }
}

/// How a program ends that returns a value.
#[inline(always)]
fn ended(value: u64) -> Ending
    ensures answer { result ≡ Ended (signed value) }
{
    Ending::Ended(word::signed(value))
}

/// A loop that has a test, and nothing between its turns.
#[inline(always)]
fn plain_loop<'a>(test: &'a RExpr, body: &'a RStmt) -> Loop<'a>
    ensures answer { result ≡ record { test = Some test.entry; update = None; body = body.entry } }
{
    Loop {
        test: Some(test),
        update: None,
        body,
    }
}

/// Lends what there is.
#[inline(always)]
fn lent<T>(x: &Option<T>) -> Option<&T>
    ensures answer { MatchOption result (x.now ≡ None) (λ y. x.now ≡ Some y.now) }
{
    match x {
        None => None,
        Some(y) => Some(y),
    }
}

/// The locals at a function's entry: its arguments, and 0 in the others.
fn entry_locals(count: usize, args: Items<u64>) -> Result<Items<u64>, NoMemory>
    ensures answer { IfOk result (λ ls. ls ≡ spec.entry_locals count args) }
{
    let mut locals = args;
    let others = count.saturating_sub(locals.len());
    fill(&mut locals, others, 0)?;
    Ok(locals)
}

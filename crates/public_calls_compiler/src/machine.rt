//! What the machine does, one instruction after another.

ghost use Rattle.std.specs.Prelude.{◌≡◌, ◌<◌, length, true, IfOk};
ghost use Rattle.paged_machine.specs.Standing.{StandsIn};
ghost use Rattle.paged_machine.specs.Fitting.{FitTogether};

use ckpt_base::NoMemory;
use dirty_pages::Pages;
use machine_code::{Code, Instr};
use page_frames::Frames;
use paged_machine::{Event, Machine, Steps};
use std::alloc::Global;
use std::marker::Brand;
use std::sync::ledger::{Blank, Ledger};
use std::test::Fail;

/// The first event that is neither `Ran` nor `Ticked`: by one run as far as three ticks, and from there step by step.
fn first_event<L: Ledger>(
    code: &Code,
    machine: &mut Machine,
    frames: &mut Frames,
    pages: &Pages,
    steps: &mut Steps<L>,
) -> Event
    requires stands { StandsIn code.now machine.old }
    requires fit { FitTogether code.now frames.old pages.now }
    requires live { machine.old.live ≡ true }
{
    if let Some(event) = machine.run_on(code, frames, pages, 3, steps) {
        return event;
    }
    for _ in 0..2000 {
        if !machine.is_live() {
            return Event::Trapped(0);
        }
        if machine.ticks() > 1000 {
            return Event::Trapped(0);
        }
        match machine.step(code, frames, pages, steps) {
            Event::Ran | Event::Ticked => {}
            event => return event,
        }
    }
    Event::Trapped(0)
}

/// One page, protected or not.
fn one_page(alloc: Global, protect: bool) -> Result<Pages, NoMemory>
    ensures { IfOk result (λ p. length p.dirty ≡ 1) }
{
    let mut pages = Pages::new(alloc, 1)?;
    if !protect {
        return Ok(pages);
    }
    pages.protect_all();
    Ok(pages)
}

/// Runs instructions over one object of four cells to the first event that tells something; None where the code is not valid.
fn first_of<L: Ledger>(
    alloc: Global,
    instrs: &[Instr],
    functions: &[(u32, u32, u32)],
    protect: bool,
    blank: Blank,
) -> Result<Option<Event>, Fail>
    requires name { blank.name ≡ L.name }
    requires parts { blank.parts ≡ L.parts }
    requires some { 0 < blank.parts }
{
    let code = Code::of(
        Vec::from_slice(alloc, instrs)?,
        Vec::from_slice(alloc, functions)?,
        vec![in alloc; (0, 4)]?,
        Vec::new(alloc),
        4,
    );
    let mut frames = Frames::new(alloc, 1, 0)?;
    let pages = one_page(alloc, protect)?;
    if !code.fits(512) {
        return Ok(None);
    }
    if !code.is_valid(alloc)? {
        return Ok(None);
    }
    let mut machine = Machine::new(alloc, &code)?;
    let mut steps = Steps::<L>::new(blank);
    Ok(Some(first_event(&code, &mut machine, &mut frames, &pages, &mut steps)))
}

fn event_of(
    alloc: Global,
    instrs: &[Instr],
    functions: &[(u32, u32, u32)],
    protect: bool,
) -> Result<Option<Event>, Fail> {
    first_of::<Brand>(alloc, instrs, functions, protect, Blank::new(1))
}

/// Two words, an instruction that takes both or the second, and the event that the code ends with.
const OPERATORS: [(i64, i64, Instr, Event); 29] = [
    (7, -2, Instr::Add, Event::Ended(5)),
    (7, -2, Instr::Sub, Event::Ended(9)),
    (7, -2, Instr::Mul, Event::Ended(-14)),
    (-7, 2, Instr::Div, Event::Ended(-3)),
    (-7, 2, Instr::Rem, Event::Ended(-1)),
    (-7, 1, Instr::Shl, Event::Ended(-14)),
    (-7, 1, Instr::Shr, Event::Ended(-4)),
    (-7, 12, Instr::And, Event::Ended(8)),
    (-7, 12, Instr::Or, Event::Ended(-3)),
    (-7, 12, Instr::Xor, Event::Ended(-11)),
    (-7, 2, Instr::Eq, Event::Ended(0)),
    (-7, 2, Instr::Ne, Event::Ended(1)),
    (-7, 2, Instr::Lt, Event::Ended(1)),
    (2, 2, Instr::Le, Event::Ended(1)),
    (-7, 2, Instr::Gt, Event::Ended(0)),
    (2, -7, Instr::Ge, Event::Ended(1)),
    (1, 0, Instr::Div, Event::Trapped(1)),
    (1, 0, Instr::Rem, Event::Trapped(1)),
    (i64::MIN, -1, Instr::Div, Event::Trapped(2)),
    (i64::MIN, -1, Instr::Rem, Event::Trapped(2)),
    (1, 64, Instr::Shl, Event::Trapped(3)),
    (1, -1, Instr::Shr, Event::Trapped(3)),
    (0, 0, Instr::Move, Event::Trapped(5)),
    (1, 0, Instr::Back, Event::Trapped(4)),
    (9, 5, Instr::Neg, Event::Ended(-5)),
    (9, 5, Instr::Not, Event::Ended(0)),
    (9, 5, Instr::Inv, Event::Ended(-6)),
    (9, 5, Instr::Test, Event::Ended(1)),
    (9, 5, Instr::Drop, Event::Ended(9)),
];

/// Words of both signs, and each trap of an operator.
#[test]
fn operators_give_what_c_gives_or_trap(rt: HostRuntime) -> Result<(), Fail> {
    for (a, b, instr, want) in OPERATORS {
        let instrs = [Instr::Num(a), Instr::Num(b), instr, Instr::Ret];
        let event = event_of(rt.alloc(), instrs.as_slice(), &[], false)?;
        assert_eq!(rt; event, Some(want), "{a} and {b}");
    }
    Ok(())
}

/// A code over one object of four cells, and the first event of it that tells something.
#[derive(Clone, Copy)]
struct Told<'a> {
    instrs: &'a [Instr],
    functions: &'a [(u32, u32, u32)],
    protect: bool,
    event: Event,
    what: &'a str,
}

const TOLD: [Told<'static>; 9] = [
    Told {
        instrs: &[
            Instr::Tick,
            Instr::Addr(0),
            Instr::Num(3),
            Instr::Move,
            Instr::Num(6),
            Instr::Put,
            Instr::LoadC(3),
            Instr::StoreC(1),
            Instr::Addr(0),
            Instr::Num(-1),
            Instr::Back,
            Instr::Fetch,
            Instr::Ret,
        ],
        functions: &[],
        protect: false,
        event: Event::Ended(6),
        what: "a cell is written and read",
    },
    Told {
        instrs: &[
            Instr::Tick,
            Instr::Addr(0),
            Instr::Num(3),
            Instr::Move,
            Instr::Num(6),
            Instr::Put,
            Instr::LoadC(3),
            Instr::StoreC(1),
            Instr::Addr(0),
            Instr::Num(-1),
            Instr::Back,
            Instr::Fetch,
            Instr::Ret,
        ],
        functions: &[],
        protect: true,
        event: Event::WriteFault(0),
        what: "a protected page is not written",
    },
    Told {
        instrs: &[
            Instr::Addr(0),
            Instr::Num(4),
            Instr::Move,
            Instr::Fetch,
            Instr::Ret,
        ],
        functions: &[],
        protect: false,
        event: Event::Trapped(4),
        what: "the end of an object is no cell",
    },
    Told {
        instrs: &[
            Instr::Num(30),
            Instr::Num(4),
            Instr::Call(0),
            Instr::Ret,
            Instr::LoadL(0),
            Instr::LoadL(1),
            Instr::Sub,
            Instr::StoreL(2),
            Instr::LoadL(2),
            Instr::Ret,
        ],
        functions: &[(4, 2, 3)],
        protect: false,
        event: Event::Ended(26),
        what: "a call has its arguments in order",
    },
    Told {
        instrs: &[Instr::Call(0), Instr::Ret, Instr::Call(0), Instr::Ret],
        functions: &[(2, 0, 0)],
        protect: false,
        event: Event::Trapped(6),
        what: "calls without end",
    },
    Told {
        instrs: &[
            Instr::Num(0),
            Instr::JumpZ(3),
            Instr::OutB(1),
            Instr::Num(321),
            Instr::OutC,
            Instr::Tick,
            Instr::Jump(5),
        ],
        functions: &[],
        protect: false,
        event: Event::Out(65),
        what: "the low byte is written",
    },
    Told {
        instrs: &[Instr::Num(8), Instr::Num(9), Instr::OutN(1), Instr::Ret],
        functions: &[],
        protect: false,
        event: Event::OutNumber(8),
        what: "a number is written",
    },
    Told {
        instrs: &[Instr::Excl(2), Instr::In, Instr::Ret],
        functions: &[],
        protect: false,
        event: Event::Exclude(2),
        what: "a directive is told",
    },
    Told {
        instrs: &[Instr::In, Instr::Ret],
        functions: &[],
        protect: false,
        event: Event::WantsInput,
        what: "input is asked for",
    },
];

#[test]
fn each_event_is_told(rt: HostRuntime) -> Result<(), Fail> {
    for row in TOLD {
        let event = event_of(rt.alloc(), row.instrs, row.functions, row.protect)?;
        let what = row.what;
        assert_eq!(rt; event, Some(row.event), "{what}");
    }
    Ok(())
}

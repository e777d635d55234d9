//! Which codes are valid, and how a code is written.

use crate::code_rows::{
    CodeRow, NAMES_IN_MAIN, PLACES_IN_MAIN, RULES_OF_FUNCTIONS, RULES_OF_TABLES,
};
use machine_code::{Code, Instr, listing};
use std::alloc::{AllocError, Global};
use std::process::Abort;
use std::test::Fail;

fn code_of(alloc: Global, row: &CodeRow<'_>) -> Result<Code, AllocError> {
    Ok(Code::of(
        Vec::from_slice(alloc, row.instrs)?,
        Vec::from_slice(alloc, row.functions)?,
        Vec::from_slice(alloc, row.objects)?,
        Vec::from_slice(alloc, row.checkpoints)?,
        row.stack,
    ))
}

fn keep_their_rules<'a>(
    rt: &impl Abort,
    alloc: Global,
    rows: &'a [CodeRow<'a>],
) -> Result<(), Fail> {
    for row in rows {
        let code = code_of(alloc, row)?;
        let rule = row.rule;
        assert_eq!(rt; code.is_valid(alloc)?, row.is_valid, "{rule}");
    }
    Ok(())
}

#[test]
fn valid_codes_keep_each_rule(rt: HostRuntime) -> Result<(), Fail> {
    let alloc = rt.alloc();
    keep_their_rules(&rt, alloc, &PLACES_IN_MAIN)?;
    keep_their_rules(&rt, alloc, &NAMES_IN_MAIN)?;
    keep_their_rules(&rt, alloc, &RULES_OF_FUNCTIONS)?;
    keep_their_rules(&rt, alloc, &RULES_OF_TABLES)
}

/// An operand is written in decimal digits with its sign, and after one blank.
#[test]
fn a_listing_has_the_operands(rt: HostRuntime) -> Result<(), Fail> {
    let instrs = [
        Instr::Num(-9223372036854775808),
        Instr::JumpZ(4294967295),
        Instr::OutB(255),
        Instr::Excl(65535),
    ];
    let code = Code::of(
        Vec::from_slice(rt.alloc(), &instrs)?,
        Vec::new(rt.alloc()),
        Vec::new(rt.alloc()),
        Vec::new(rt.alloc()),
        1,
    );
    let text = listing(rt.alloc(), &code)?;
    assert_eq!(rt;
        text.as_bytes(),
        b"0 NUM -9223372036854775808\n1 JUMPZ 4294967295\n2 OUTB 255\n3 EXCL 65535\n".as_slice()
    );
    Ok(())
}

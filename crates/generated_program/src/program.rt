//! The text of the generated program.

ghost use Rattle.std.specs.Prelude.{◌≡◌, ◌≤◌, ◌<◌, ◌+◌, ◌*◌, ◌++◌, length, IfOk, OnOk, string_bytes};
ghost use Rattle.generated_program.specs.Generated as spec;

use ckpt_base::{Bytes, NoMemory};
use std::alloc::{AllocError, Global};

/// The most bytes that a source may have.
const ROOM: usize = 262_144;

/// The text of the program of `n` functions, 1 to 1,000. It is short enough for a source.
#[tactic(auto, unfolding(crate::specs::Generated::generated))]
pub fn program_text(alloc: Global, n: u16) -> Result<Bytes, NoMemory>
    requires most { n ≤ 1000 }
    ensures answer { IfOk result (λ t. t.list ≡ spec.generated n) }
    ensures short { IfOk result (λ t. length t.list ≤ 262144) }
{
    let mut text = Bytes::with_room(alloc, ROOM)?;
    text.append(b"#define TURNS 20\n");
    add_functions(alloc, &mut text, n)?;
    text.append(
        b"int main(void) { long t; long r; long w; w = 0; EXCLUDE_HERE; for (t = 0; t < TURNS; t = t + 1) {\n",
    );
    add_calls(alloc, &mut text, n)?;
    text.append(b"CHECKPOINT_HERE; } printf(\"%ld\\n\", w); return 0; }\n");
    Ok(text)
}

// Appends the functions.
fn add_functions(alloc: Global, text: &mut Bytes, n: u16) -> Result<(), NoMemory>
    requires most { n ≤ 1000 }
    requires room { 155 * n ≤ text.old.spare }
    ensures list { OnOk result (text.new.list ≡ text.old.list ++ spec.each_below n (spec.function_text n)) }
    ensures spare { OnOk result (text.old.spare ≤ text.new.spare + 155 * n) }
    ensures short { OnOk result (length text.new.list ≤ length text.old.list + 155 * n) }
{
    'functions: for k in 0..n {
        add_function(alloc, text, n, k)?;
    }
    Ok(())
}

// .. and one of them.
fn add_function(alloc: Global, text: &mut Bytes, n: u16, k: u16) -> Result<(), NoMemory>
    requires most { k < 1000 }
    requires room { 155 ≤ text.old.spare }
    ensures list { OnOk result (text.new.list ≡ text.old.list ++ spec.function_text n k) }
    ensures spare { OnOk result (text.old.spare ≤ text.new.spare + 155) }
    ensures short { OnOk result (length text.new.list ≤ length text.old.list + 155) }
{
    add_part(text, kept_line(alloc, k)?);
    add_part(text, function_head(alloc, k)?);
    add_part(text, function_loop(alloc, k, multiplier(n, k))?);
    add_part(text, function_end(alloc, k)?);
    Ok(())
}

// The line of what function `k` keeps.
fn kept_line(alloc: Global, k: u16) -> Result<String, AllocError>
    requires most { k < 1000 }
    ensures answer { IfOk result (λ part. string_bytes part ≡ spec.kept_line k) }
    ensures short { IfOk result (λ part. length (string_bytes part) ≤ 26) }
{
    format!(in alloc; "long g{k}[64]; long s{k};\n")
}

// The line of function `k`, up to its loop.
fn function_head(alloc: Global, k: u16) -> Result<String, AllocError>
    requires most { k < 1000 }
    ensures answer { IfOk result (λ part. string_bytes part ≡ spec.function_head k) }
    ensures short { IfOk result (λ part. length (string_bytes part) ≤ 52) }
{
    format!(in alloc; "long f{k}(long v) {{ long i; i = 0; while (i < 64) {{ ")
}

// .. its loop.
fn function_loop(alloc: Global, k: u16, factor: u32) -> Result<String, AllocError>
    requires most { k < 1000 }
    requires factor { factor < 1000 }
    ensures answer { IfOk result (λ part. string_bytes part ≡ spec.function_loop k factor) }
    ensures short { IfOk result (λ part. length (string_bytes part) ≤ 46) }
{
    format!(in alloc; "g{k}[i] = g{k}[i] + v * {factor} + i; i = i + 1; }} ")
}

// .. and its end.
fn function_end(alloc: Global, k: u16) -> Result<String, AllocError>
    requires most { k < 1000 }
    ensures answer { IfOk result (λ part. string_bytes part ≡ spec.function_end k) }
    ensures short { IfOk result (λ part. length (string_bytes part) ≤ 31) }
{
    format!(in alloc; "s{k} = g{k}[v]; return s{k}; }}\n")
}

// The factor in function `k` of `n`.
fn multiplier(n: u16, k: u16) -> u32
    ensures answer { result ≡ spec.multiplier n k }
{
    (37 * u32::from(n) + 101 * u32::from(k)) % 1000
}

// Appends the calls of the functions.
fn add_calls(alloc: Global, text: &mut Bytes, n: u16) -> Result<(), NoMemory>
    requires most { n ≤ 1000 }
    requires room { 24 * n ≤ text.old.spare }
    ensures list { OnOk result (text.new.list ≡ text.old.list ++ spec.each_below n spec.call_line) }
    ensures spare { OnOk result (text.old.spare ≤ text.new.spare + 24 * n) }
    ensures short { OnOk result (length text.new.list ≤ length text.old.list + 24 * n) }
{
    'calls: for k in 0..n {
        add_call(alloc, text, k)?;
    }
    Ok(())
}

// .. and of one of them.
fn add_call(alloc: Global, text: &mut Bytes, k: u16) -> Result<(), NoMemory>
    requires most { k < 1000 }
    requires room { 24 ≤ text.old.spare }
    ensures list { OnOk result (text.new.list ≡ text.old.list ++ spec.call_line k) }
    ensures spare { OnOk result (text.old.spare ≤ text.new.spare + 24) }
    ensures short { OnOk result (length text.new.list ≤ length text.old.list + 24) }
{
    add_part(text, call_line(alloc, k)?);
    Ok(())
}

// The line that calls function `k`.
fn call_line(alloc: Global, k: u16) -> Result<String, AllocError>
    requires most { k < 1000 }
    ensures answer { IfOk result (λ part. string_bytes part ≡ spec.call_line k) }
    ensures short { IfOk result (λ part. length (string_bytes part) ≤ 24) }
{
    format!(in alloc; "r = f{k}(t); w = w + r;\n")
}

// Appends a part that was made.
fn add_part(text: &mut Bytes, part: String)
    requires room { length (string_bytes part) ≤ text.old.spare }
    ensures list { text.new.list ≡ text.old.list ++ string_bytes part }
    ensures spare { text.new.spare + length (string_bytes part) ≡ text.old.spare }
    ensures length { length text.new.list ≡ length text.old.list + length (string_bytes part) }
{
    text.append(part.as_bytes());
}

//! The line of a record.

ghost use Rattle.std.specs.Prelude.{◌≡◌, ◌≤◌, ◌+◌, ◌++◌, OnOk, string_bytes};
ghost use Rattle.chain_listing.specs.Lines as spec;

use image_format::ImageView;
use std::alloc::AllocError;
use std::fmt::Write;

/// Writes the number of the image, its steps and the cells that it lists.
pub fn add_line(text: &mut String, image: &ImageView<'_>) -> Result<(), AllocError>
    ensures answer { OnOk result (string_bytes text.new ≡ string_bytes text.old ++ spec.record_line image.now) }
{
    let fields = image.fields();
    write!(text, "image {} step {} cells", fields.number, fields.steps)?;
    add_ranges(text, image)?;
    writeln!(text)
}

// Writes the runs of cells, a blank before each.
fn add_ranges(text: &mut String, image: &ImageView<'_>) -> Result<(), AllocError>
    ensures answer { OnOk result (string_bytes text.new ≡ string_bytes text.old ++ spec.runs_text image.now.runs) }
{
    'runs: for run in image.runs() {
        add_range(text, run.first, run.count)?;
    }
    Ok(())
}

// Writes a blank, and the first and the last cell of a run, or its one cell.
fn add_range(text: &mut String, first: u32, count: u32) -> Result<(), AllocError>
    requires some { 1 ≤ count }
    requires within { first + count ≤ 262144 }
    ensures answer { OnOk result (string_bytes text.new ≡ string_bytes text.old ++ spec.run_text first count) }
{
    if count == 1 {
        write!(text, " {first}")
    } else {
        let last = first + count - 1;
        write!(text, " {first}..{last}")
    }
}

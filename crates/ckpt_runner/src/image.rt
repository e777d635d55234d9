//! The image that a checkpoint takes.
ghost use Rattle.std.specs.Prelude.{◌≡◌, ◌≤◌, ◌<◌, ◌+◌, ◌*◌, ◌/◌, ◌&&◌, not, nat_lt, ℕ, length};
ghost use Rattle.cell_sets.specs.Runs.{in_runs, IsRising};
ghost use Rattle.dirty_pages.specs.Pages.{is_dirty};
ghost use Rattle.run_images.specs.Compiled.{cells_in};
ghost use Rattle.run_images.specs.Images.{fields_at, is_excluded};
ghost use Rattle.run_images.specs.Since.{Since};
ghost use Rattle.ckpt_runner.specs.Lives.{progress_in};

use crate::progress::Progress;
use cell_sets::{CellTest, RunList};
use compiled_program::Compiled;
use dirty_pages::Pages;
use image_format::{Fields, Marks};

/// How many cells a page has.
const PAGE_CELLS: u32 = 512;

/// What an image says of the checkpoint of a node, which is passed behind so many ticks and bytes of output.
pub fn fields_of(
    marks: &Marks,
    progress: &Progress,
    node: u32,
    ticks: u64,
    output_length: u64,
) -> Fields
    requires number { progress.now.number < 4294967295 }
    ensures answer { (s : Since) → progress.now ≡ progress_in s → output_length ≡ s.output_length → result ≡ fields_at marks.now node ticks s }
{
    Fields {
        marks: *marks,
        node,
        steps: ticks,
        input_place: progress.input_place,
        output_length,
        directive: progress.directive,
        left_out: progress.included && progress.directive != 0,
        number: progress.number + 1,
    }
}

/// Makes the list the runs of the cells that an image lists: those of dirty pages that the directive in force does not leave out.
pub fn find_cells(compiled: &Compiled, progress: &Progress, pages: &Pages, runs: &mut RunList)
    requires directive { progress.now.directive ≤ compiled.now.directives }
    requires pages { cells_in compiled.now ≤ 512 * length pages.now.dirty }
    ensures rising { IsRising 0 runs.new (cells_in compiled.now + 1) }
    ensures exact { (c : ℕ) → in_runs runs.new c ≡ (nat_lt c (cells_in compiled.now) && (is_dirty pages.now (c / 512) && not (is_excluded compiled.now.sets progress.now.directive progress.now.included c))) }
{
    let listed = ListedCells {
        compiled,
        pages,
        directive: progress.directive,
        included: progress.included,
    };
    runs.fill(compiled.cells(), &listed);
}

/// The cells of dirty pages that a directive does not leave out.
#[derive(Clone, Copy)]
struct ListedCells<'a> {
    compiled: &'a Compiled,
    pages: &'a Pages,
    directive: u16,
    included: bool,
    ghost directive_there: { directive ≤ compiled.now.directives },
    ghost pages_there: { cells_in compiled.now ≤ 512 * length pages.now.dirty },
}

impl<'a> CellTest for ListedCells<'a> {
    ghost use Rattle.std.specs.Prelude.{◌/◌, ◌&&◌, not, nat_lt};
    ghost use Rattle.dirty_pages.specs.Pages.{is_dirty};
    ghost use Rattle.run_images.specs.Compiled.{cells_in};
    ghost use Rattle.run_images.specs.Images.{is_excluded};

    ghost passes = { λ t c. nat_lt c (cells_in t.compiled.now) && (is_dirty t.pages.now (c / 512) && not (is_excluded t.compiled.now.sets t.directive t.included c)) };

    fn stretch_to(&self, from: u32, end: u32) -> (bool, u32) {
        let cells = self.compiled.cells();
        if from >= cells {
            return (false, end);
        }
        let page = from / PAGE_CELLS;
        let page_end = ((page + 1) * PAGE_CELLS).min(cells).min(end);
        if !self.pages.is_dirty(page) {
            return (false, page_end);
        }
        let (left_out, next) = self
            .compiled
            .excluded_to(self.directive, self.included, from, page_end);
        (!left_out, next)
    }
}

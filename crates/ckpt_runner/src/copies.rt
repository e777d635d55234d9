//! The copies of pages that are written while an image of them is under way.
ghost use Rattle.std.specs.Prelude.{◌≡◌, ◌<◌, ◌*◌, ℕ, Bool, List, true, false, length};
ghost use Rattle.dirty_pages.specs.Pages.{in_snapshot, is_protected, copied, served};
ghost use Rattle.ckpt_runner.specs.Snapshot.{IsSnapped};
ghost use Rattle.ckpt_runner.specs.Keeps.{NoneSnapped};

use dirty_pages::Pages;
use page_frames::Frames;

// Copies a page of the snapshot aside, and takes it out of the snapshot.
fn copy(frames: &Frames, copies: &mut Frames, pages: &mut Pages, page: u32)
    requires page { page < length pages.old.dirty }
    requires frames { length frames.now ≡ 512 * length pages.old.dirty }
    requires copies { length copies.old ≡ 512 * length pages.old.dirty }
    requires marked { in_snapshot pages.old page ≡ true }
    ensures pages { pages.new ≡ copied pages.old page }
    ensures size { length copies.new ≡ length copies.old }
    ensures snapped { length pages.old.in_snapshot ≡ length pages.old.dirty → (takes : ℕ → Bool) (memory : List ℕ)
        → IsSnapped takes memory pages.old frames.now copies.old → IsSnapped takes memory pages.new frames.now copies.new }
{
    frames.copy_frame(page, copies);
    pages.copied(page);
}

// Serves the write fault of a page: one of the snapshot is copied aside first.
pub(crate) fn serve_fault(frames: &Frames, copies: &mut Frames, pages: &mut Pages, page: u32)
    requires page { page < length pages.old.dirty }
    requires frames { length frames.now ≡ 512 * length pages.old.dirty }
    requires copies { length copies.old ≡ 512 * length pages.old.dirty }
    requires marks { length pages.old.in_snapshot ≡ length pages.old.dirty }
    requires protected { is_protected pages.old page ≡ true }
    ensures dirty { pages.new.dirty ≡ (served pages.old page).dirty }
    ensures marks { length pages.new.in_snapshot ≡ length pages.old.in_snapshot }
    ensures fewer { (other : ℕ) → in_snapshot pages.new other ≡ true → in_snapshot pages.old other ≡ true }
    ensures here { in_snapshot pages.new page ≡ false }
    ensures size { length copies.new ≡ length copies.old }
    ensures snapped { (takes : ℕ → Bool) (memory : List ℕ)
        → IsSnapped takes memory pages.old frames.now copies.old → IsSnapped takes memory pages.new frames.now copies.new }
{
    if pages.in_snapshot(page) {
        copy(frames, copies, pages, page);
    }
    pages.serve_fault(page);
}

// Copies what is left of the snapshot aside.
pub(crate) fn copy_rest(frames: &Frames, copies: &mut Frames, pages: &mut Pages)
    requires frames { length frames.now ≡ 512 * length pages.old.dirty }
    requires copies { length copies.old ≡ 512 * length pages.old.dirty }
    requires marks { length pages.old.in_snapshot ≡ length pages.old.dirty }
    ensures dirty { pages.new.dirty ≡ pages.old.dirty }
    ensures marks { length pages.new.in_snapshot ≡ length pages.old.in_snapshot }
    ensures none { NoneSnapped pages.new }
    ensures size { length copies.new ≡ length copies.old }
    ensures snapped { (takes : ℕ → Bool) (memory : List ℕ)
        → IsSnapped takes memory pages.old frames.now copies.old → IsSnapped takes memory pages.new frames.now copies.new }
{
    'pages: for page in 0..frames.pages() {
        if pages.in_snapshot(page) {
            copy(frames, copies, pages, page);
        }
    }
}

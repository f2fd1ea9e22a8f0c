// What Secure may write, page by page (document 01, "Permission"). The rows of a list are data rows, of which their page says all: so a pass looks
// it up once for each page, and hands on no state.
ghost use Rattle.std.specs.Prelude.{◌≡◌};
ghost use Rattle.repair.specs.Permits as spec;

use chip::callers::SECURE;
use chip::pages::Page;
use chip::state::State;
use permit::permission::may_write;
use std::array;

// Of each page, whether Secure may write its rows.
pub(crate) fn writable_pages(state: State) -> [bool; 64]
    ensures { result ≡ spec.writable_pages state }
{
    array::from_fn(|page| may_write(state, SECURE, Page::ROWS * page as u32))
}

// Whether that is so of a row's page, which any pages may be asked.
pub(crate) fn writable(pages: &[bool], row: u32) -> bool
    ensures { result ≡ spec.writable pages.now row }
{
    let page = (row / Page::ROWS) as usize;
    page < pages.len() && pages[page]
}

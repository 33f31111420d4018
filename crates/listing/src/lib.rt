// A text's listing, page by page: the sections, then the rows; and all pages to standard output.
#![tactic(auto)]

ghost use Rattle.std.specs.Prelude.{◌≡◌, ◌≤◌, length};
ghost use Rattle.verdicts.specs.Found.{SomeFound};
ghost use Rattle.sections.specs.Listing.{front_most};
ghost use Rattle.listing.specs.Pages.{fitting as fitting_of, Begins, GoesOn};

use sections::Page;
use streams::Screen;
use texts::Verdict;

// Filed listings have the dot for an unassigned pin.
const DOT: u8 = b'.';

// ---- the first page

// A text that 1 to 16 leave: 17, or its sections.
fn shown<'a>(
    text: &'a [u8],
    places: &'a [usize],
    lists: &'a [u16],
    tplaces: &'a [usize],
    waves: &'a [u8],
    book: &'a [usize],
    rows: &'a [u16],
    list: &'a [usize],
    used: &'a [u8],
    v: Verdict,
    page: &mut [u8],
) -> Page
    requires { (front_most ≤ length page.old) × SomeFound text.now places.now lists.now tplaces.now waves.now book.now rows.now list.now used.now v }
    ensures { Begins text.now page.old result page.new }
{
    let parts = v.parts;
    let total = v.total;
    let known = parts.known;
    match verdicts::failing(
        text, places, lists, tplaces, waves, book, rows, list, used, v,
    ) {
        Ok(()) => sections::sections(
            page,
            text,
            places,
            tplaces,
            parts.signals,
            known.tables,
            total.cycles,
        ),
        Err(failing) => sections::refused(page, text, failing.no, failing.place),
    }
}

// All but the rows: the sections, or the refusal. A page of less than FRONT bytes has no room for it, and stays as it is.
pub fn begin(text: &[u8], page: &mut [u8]) -> Page
    ensures { Begins text.now page.old result page.new }
{
    if page.len() < sections::FRONT {
        return Page {
            room: false,
            length: 0,
            first: 0,
            left: 0,
            width: 0,
        };
    }
    let mut places = [0usize; signals::PLACES];
    let mut lists = [0u16; signals::LISTS];
    let mut tplaces = [0usize; timing::PLACES];
    let mut waves = [0u8; timing::WAVES];
    let mut book = [0usize; measures::BOOK];
    let mut rows = [0u16; measures::ROWS];
    let mut list = [0usize; bursts::LISTED];
    let mut used = [0u8; noted::USED];
    match texts::decide(
        text,
        &mut places,
        &mut lists,
        &mut tplaces,
        &mut waves,
        &mut book,
        &mut rows,
        &mut list,
        verdicts::nowhere(),
        &mut used,
    ) {
        Ok(v) => shown(
            text, &places, &lists, &tplaces, &waves, &book, &rows, &list, &used, v, page,
        ),
        Err(refusal) => sections::refused(page, text, refusal.no, refusal.place),
    }
}

// ---- the pages behind it

// As many rows as are left, and fit.
fn fitting(p: Page, room: usize) -> usize
    ensures { result ≡ fitting_of p room }
{
    let width = p.width;
    if width == 0 {
        return 0;
    }
    let n = room / width;
    if p.left < n {
        return p.left;
    }
    n
}

// The next rows. A page behind the last has none.
pub fn go_on(text: &[u8], p: Page, page: &mut [u8]) -> Page
    ensures { GoesOn text.now page.old p result page.new }
{
    let n = fitting(p, page.len());
    match views::window(text, p.first, n, DOT, page) {
        Err(_) => sections::last(0),
        Ok(shown) => Page {
            room: true,
            length: shown.count * p.width,
            first: p.first + shown.count,
            left: p.left - shown.count,
            width: p.width,
        },
    }
}

// ---- to standard output

// A text's listing to standard output, page by page. Where a page brings no row nearer to the end, that is told, and nothing is passed over silently.
pub fn list(rt: &impl Screen, text: &[u8]) {
    let mut space = streams::rows();
    let page: &mut [u8] = &mut space;
    let watched = streams::is_watched(rt);
    let mut p = begin(text, page);
    let all = p.left;
    let mut going = streams::write(rt, page, p.length);
    while going & (0 < p.left) {
        let next = go_on(text, p, page);
        going = streams::write(rt, page, next.length);
        if p.left <= next.left {
            return streams::broken(rt, b"the listing stands still\n");
        }
        p = next;
        if watched {
            streams::progress(rt, all - p.left, all);
        }
    }
}

// Makes the calls of rows, and writes what they told.
ghost use Rattle.std.specs.Prelude.{◌≡◌, ◌≤◌, true, false, map, length, nat_le};
ghost use Rattle.book.specs.Below.{table};
ghost use Rattle.congress.specs.Meaning.{scene_of};
ghost use Rattle.measured.specs.Rooms.{HallsFitInMemory};
ghost use Rattle.measured.specs.Measured.{number_in, Made, Measured, Untouched};
ghost use Rattle.measured.specs.Rows.{call_of, rows_of, row_step};
ghost use Rattle.order.specs.Runs.{beginning, run};
ghost use Rattle.roll.specs.Roll.{roll_model, page_of, first_page};
ghost use Rattle.std.proofs.lemmas.List.Edits.{sets};

use super::reading::{parts_at, row_of_nothing, row_of_number, row_of_report};
use super::rows::{CallRow, PartsRow, ToldRow};
use book::{Book, HALLS, Hall, Halls};
use congress::Congress;
use records::{Message, Request};
use roll::Roll;

// So many numbers are written for each hall, which is more than a page has.
const WIDTH: usize = 512;

const POST_PLACES: usize = 1024;

// Makes the call of a row, by its kind: 0 Open, 1 Issue, 2 Deliver, 3 Work, 4 Clock, any other Drop.
fn make_row<B: Book>(
    congress: &mut Congress,
    book: &mut B,
    post: &mut [Message],
    parts: &[PartsRow],
    row: &CallRow,
) -> ToldRow
    ensures { (result, scene_of congress.new post.new (B.pages book.new)) ≡ row_step B.model parts.now row.now (scene_of congress.old post.old (B.pages book.old)) }
{
    match row.kind {
        0 => row_of_nothing(congress.open(row.at)),
        1 => row_of_number(congress.issue(
            post,
            row.at,
            row.class,
            row.halls,
            parts_at(parts, row.number),
        )),
        2 => row_of_report(congress.deliver(book, post, row.number as usize)),
        3 => row_of_report(congress.work(book, post, row.at)),
        4 => row_of_nothing(congress.set_clock(row.at, row.number)),
        _ => row_of_nothing(congress.drop_message(post, row.number as usize)),
    }
}

// Makes the calls in turn, and writes what each told at its place.
fn make_all<B: Book>(
    congress: &mut Congress,
    book: &mut B,
    post: &mut [Message],
    parts: &[PartsRow],
    calls: &[CallRow],
    told: &mut [ToldRow],
)
    requires { length calls.now ≤ length told.old }
    ensures left { scene_of congress.new post.new (B.pages book.new) ≡ (run B.model (map (call_of parts.now) calls.now) (beginning (scene_of congress.old post.old (B.pages book.old)))).now }
    ensures told { told.new ≡ sets told.old 0 (rows_of B.model parts.now calls.now (beginning (scene_of congress.old post.old (B.pages book.old)))) }
{
    for (place, call) in calls.iter().enumerate() {
        told[place] = make_row(congress, book, post, parts, call);
    }
}

// The number at a place of the pages that follow one another; 0 where no page has one.
fn number_in<B: Book>(book: &B, place: usize) -> i64
    ensures { result ≡ number_in (B.pages book.now) place }
{
    let hall = place / WIDTH;
    if hall >= HALLS {
        return 0;
    }
    book.number(hall as u8, place % WIDTH).unwrap_or(0)
}

fn write_pages<B: Book>(book: &B, pages: &mut [i64])
    ensures { pages.new ≡ sets pages.old 0 (table (length pages.old) (number_in (B.pages book.now))) }
{
    for place in 0..pages.len() {
        pages[place] = number_in(book, place);
    }
}

// Makes the calls at a congress not yet opened over this roll.
fn measure<B: Book + Drop>(
    mut roll: Roll<B>,
    parts: &[PartsRow],
    calls: &[CallRow],
    told: &mut [ToldRow],
    pages: &mut [i64],
) -> bool
    ensures fits { result ≡ nat_le (length calls.now) (length told.old) }
    ensures told { result ≡ true → Made (roll_model B.model) (page_of B.pages roll) parts.now calls.now told.old told.new pages.old pages.new }
    ensures refused { result ≡ false → Untouched told.old told.new pages.old pages.new }
{
    if told.len() < calls.len() {
        return false;
    }
    let mut congress = Congress::new();
    let mut post = [Message::Request(Request::default()); POST_PLACES];
    make_all(&mut congress, &mut roll, &mut post, parts, calls, told);
    write_pages(&roll, pages);
    true
}

// And over a new book with this part at each hall.
pub(crate) fn measure_new<H: Hall + Copy>(
    chief: u32,
    parts: &[PartsRow],
    calls: &[CallRow],
    told: &mut [ToldRow],
    pages: &mut [i64],
) -> bool
    requires { HallsFitInMemory H.row }
    ensures fits { result ≡ nat_le (length calls.now) (length told.old) }
    ensures told { result ≡ true → Measured (roll_model H.model) (first_page chief H.first) parts.now calls.now told.old told.new pages.old pages.new }
    ensures refused { result ≡ false → Untouched told.old told.new pages.old pages.new }
{
    measure(
        Roll::new(chief, Halls::<H>::new()),
        parts,
        calls,
        told,
        pages,
    )
}

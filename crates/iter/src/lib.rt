// The walk as a struct that holds the image it reads, over the proved step of map.
#![tactic(auto)]

ghost use Rattle.map.specs.Code.{StepOk};

use map::Stepped;
use rules::Cursor;

// A walk: the image, and the cursor with its first page, the page it reads and the place it reads next.
// It is no Iterator: at each step its caller gives the page size, and may be told a refusal.
#[derive(Clone, Copy)]
pub struct MapItemIter<'a> {
    pub image: &'a [u8],
    pub cursor: Cursor,
}

impl<'a> MapItemIter<'a> {
    ghost use Rattle.std.specs.Prelude.{◌≡◌};
    ghost use Rattle.iter.specs.Code.{walk_at};

    // A walk from a cursor, which map::fetch_all_items gives.
    pub fn new(image: &'a [u8], cursor: Cursor) -> MapItemIter<'a>
        ensures { result ≡ walk_at image.entry cursor }
    {
        MapItemIter { image, cursor }
    }

    // The walk's next item, and the cursor after it.
    pub fn next(self, page_size: usize) -> Stepped
        ensures { StepOk page_size self.entry.cursor self.entry.image.now result }
    {
        map::next_item(self.image, page_size, self.cursor)
    }

    // The walk after a step: the same image, and the step's cursor.
    pub fn moved(self, cursor: Cursor) -> MapItemIter<'a>
        ensures { result ≡ walk_at self.entry.image cursor }
    {
        MapItemIter { cursor, ..self }
    }
}

// A walk's next item, from any cursor, for a caller that has a plain slice.
pub fn next_of(image: &[u8], cursor: Cursor, page_size: usize) -> Stepped
    ensures { StepOk page_size cursor image.now result }
{
    MapItemIter::new(image, cursor).next(page_size)
}

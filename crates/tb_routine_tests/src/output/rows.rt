//! What is done in each scene, and what it says then.

use super::steps::Row;
use super::steps::Step::{
    Ask, Columns, Deep, Drops, Event, Fire, Glued, Held, Note, Open, Place, Suppress, Take,
};
use tb_node::{Area, CLEAR_PENALTY, HOLD_PENALTY, PAR_PENALTY, VERT_PENALTY};
use tb_scaled::EJECT_PENALTY;

const HELD: &str = "1073741823:";

pub(super) const PAGES: &[Row] = &[
    (Ask, "100 2 10 4194304"),
    (Held, "0"),
    (Fire(&[10], EJECT_PENALTY), "100:"),
    (Fire(&[10, 20], 10_000), "100:"),
    (Event, "page 1, 10 of 100: g0 b10 g0"),
    (Event, "page 2, 30 of 100: g0 b10 g0 b20 g0"),
    (Event, ""),
];

// A float in the text, at the top, at the bottom, deferred, deferred with a warning, and one that crowds the page.
pub(super) const FLOATS: &[Row] = &[
    (Take("h", 20), ""),
    (Glued(&[10], HOLD_PENALTY), HELD),
    (Held, "3"),
    (
        Fire(&[0], PAR_PENALTY),
        "100: g0 b10 g5 g-5 p7 g5 g3 here20 p7 g3",
    ),
    (Held, "0"),
    (Take("h", 20), ""),
    (Glued(&[10], HOLD_PENALTY), HELD),
    (
        Fire(&[0], VERT_PENALTY),
        "100: g0 b10 g5 g-5 p7 g5 g3 here20 p7 g3 g-4",
    ),
    (Open, ""),
    (Take("t", 30), ""),
    (Place(&[10]), "70: g0 b10 p7"),
    (Ask, "70 2 10 4194304"),
    (Take("b", 20), ""),
    (Place(&[10]), "50: g0 b10 p7"),
    (Ask, "50 0 10 4194304"),
    (Fire(&[10], EJECT_PENALTY), "100:"),
    (
        Event,
        "page 1, 60 of 100: top30 g0 g0 g0 g0 b10 g0 bottom20 g0 g0 g0",
    ),
    (Event, ""),
];

pub(super) const DEFERRED: &[Row] = &[
    (Take("h", 50), ""),
    (Place(&[60]), "100: g0 b60 p7"),
    (Take("p", 60), ""),
    (Place(&[60]), "100: g0 b60 p7"),
    (Fire(&[60], EJECT_PENALTY), "50:"),
    (Fire(&[10], EJECT_PENALTY), "100:"),
    (Event, "ht"),
    (Event, "page 1, 60 of 100: g0 b60 g0"),
    (Event, "page 2, 60 of 100: top50 g0 g0 g0 g0 b10 g0"),
    (Event, "page 3, 60 of 100: g0 g0 g0 page60 g0"),
    (Event, ""),
];

// The rest of a page that is cleared is dropped; floats that wait, and those at the top, are put out.
pub(super) const CLEARS: &[Row] = &[
    (Fire(&[10, 20], CLEAR_PENALTY), "100: g0 b10"),
    (Event, ""),
    (Take("p", 20), ""),
    (Place(&[10]), "100: g0 b10 p7"),
    (Fire(&[10], CLEAR_PENALTY), "100: g0 b10"),
    (Event, "page 1, 20 of 100: g0 g0 g0 page20 g0"),
    (Take("t", 30), ""),
    (Place(&[10]), "70: g0 b10 p7"),
    (Fire(&[10], CLEAR_PENALTY), "100: g0 b10"),
    (Event, "page 2, 30 of 100: g0 g0 g0 page30 g0"),
    (Event, ""),
];

// A line and a half is more than the 25 that the float leaves; in the second column two are left blank.
pub(super) const CROWDED: &[Row] = &[
    (Take("!t", 75), ""),
    (Place(&[10]), "1073741823: g0 b10 p7 b0 p-10000"),
    (Event, "floats 1"),
    (Open, ""),
    (Columns(true), ""),
    (Fire(&[10], EJECT_PENALTY), "100:"),
    (Take("!t", 75), ""),
    (Place(&[10]), "1073741823: g0 b10 p7 b0 p-10000 b0 p-10000"),
    (Event, "floats 1"),
];

// A pool of three boxes. Floats are kept out of an area until a column is put out. A first column that waits is dropped
// at a change of columns, and a double float is single in one column.
pub(super) const ACTS: &[Row] = &[
    (Take("h", 110), ""),
    (Take("h", 10), ""),
    (Note, "full at 2"),
    (Take("h", 10), ""),
    (Take("h", 120), "full at 3"),
    (Event, "large 10"),
    (Event, ""),
    (Open, ""),
    (Suppress(Area::Top), ""),
    (Take("t", 30), ""),
    (Place(&[10]), "100: g0 b10 p7"),
    (Fire(&[10], EJECT_PENALTY), "70:"),
    (Open, ""),
    (Suppress(Area::Bottom), ""),
    (Take("t", 30), ""),
    (Place(&[10]), "70: g0 b10 p7"),
    (Suppress(Area::All), ""),
    (Take("b", 10), ""),
    (Place(&[10]), "70: g0 b10 p7"),
    (Open, ""),
    (Columns(true), ""),
    (Fire(&[10], EJECT_PENALTY), "100:"),
    (Drops, "true"),
    (Columns(false), ""),
    (Drops, "false"),
    (Take("wt", 30), ""),
    (Place(&[20]), "70: g0 b20 p7"),
    (Fire(&[20], EJECT_PENALTY), "100:"),
    (Event, "page 1, 50 of 100: top30 g0 g0 g0 g0 b20 g0"),
    (Event, ""),
];

// A pair of columns under a wide float. At a clear a second column stays blank before a further clear; at a first one the
// wide float is shipped.
pub(super) const COLUMNS: &[Row] = &[
    (Columns(true), ""),
    (Take("wt", 30), ""),
    (Place(&[10]), "100: g0 b10 p7"),
    (Fire(&[10], EJECT_PENALTY), "100:"),
    (Fire(&[20], EJECT_PENALTY), "70:"),
    (Fire(&[30], EJECT_PENALTY), "70:"),
    (Fire(&[40], EJECT_PENALTY), "100:"),
    (
        Event,
        "page 1 two at 0, 10 of 100: g0 b10 g0, 20 of 100: g0 b20 g0",
    ),
    (
        Event,
        "page 2 two at 30 double30 g0 g0 g0, 30 of 70: g0 b30 g0, 40 of 70: g0 b40 g0",
    ),
    (Event, ""),
    (Take("wp", 20), ""),
    (Place(&[10]), "100: g0 b10 p7"),
    (Fire(&[10], EJECT_PENALTY), "100:"),
    (
        Fire(&[0], CLEAR_PENALTY),
        "100: g0 b0 b0 g0 p-10000 w0 b0 p-10001 g0 p-10000 w0 b0 p-10001",
    ),
    (Fire(&[0], EJECT_PENALTY), "100:"),
    (Fire(&[0], CLEAR_PENALTY), "100: g0 b0"),
    (
        Event,
        "page 3 two at 0, 10 of 100: g0 b10 g0, 0 of 100: g0 b0 g0",
    ),
    (Event, "page 4 wide, 20 of 100: g0 g0 g0 page20 g0"),
    (Event, ""),
];

// The second note of a column is moved down under the first; in two columns a note is on the outer side.
pub(super) const NOTES: &[Row] = &[
    (Note, ""),
    (Deep(&[10], HOLD_PENALTY), HELD),
    (Fire(&[0], PAR_PENALTY), "100: g0 b10 k-2 right0 b0 p7"),
    (Event, ""),
    (Note, ""),
    (Deep(&[10, 6], HOLD_PENALTY), HELD),
    (
        Fire(&[0], PAR_PENALTY),
        "100: g0 b10 g0 b6 k-2 right6 b0 p7",
    ),
    (Event, "moved 6"),
    (Fire(&[10], EJECT_PENALTY), "100:"),
    (Columns(true), ""),
    (Note, ""),
    (Place(&[10]), "100: g0 b10 k0 left0 b0 p7"),
    (Fire(&[10], EJECT_PENALTY), "100:"),
    (Note, ""),
    (Place(&[10]), "100: g0 b10 k0 right0 b0 p7"),
];

// A wide float keeps a later one of its class from the column until it is shipped.
pub(super) const WIDE_2015: &[Row] = &[
    (Columns(true), ""),
    (Take("wp", 60), ""),
    (Place(&[10]), "100: g0 b10 p7"),
    (Take("t", 20), ""),
    (Place(&[10]), "100: g0 b10 p7"),
    (Fire(&[10], EJECT_PENALTY), "100:"),
    (Fire(&[10], EJECT_PENALTY), "80:"),
    (
        Event,
        "page 1 two at 0, 10 of 100: g0 b10 g0, 10 of 100: g0 b10 g0",
    ),
    (Event, "page 2 wide, 60 of 100: g0 g0 g0 page60 g0"),
];

// In the release before it does not.
pub(super) const WIDE_2014: &[Row] = &[
    (Columns(true), ""),
    (Take("wp", 60), ""),
    (Take("t", 20), ""),
    (Place(&[10]), "80: g0 b10 p7"),
    (Fire(&[10], EJECT_PENALTY), "100:"),
    (Fire(&[10], EJECT_PENALTY), "100:"),
    (
        Event,
        "page 1 two at 0, 30 of 100: top20 g0 g0 g0 g0 b10 g0, 10 of 100: g0 b10 g0",
    ),
    (Event, "page 2 wide, 60 of 100: g0 g0 g0 page60 g0"),
];

pub(super) const DEAD_CYCLES: &[Row] = &[
    (Fire(&[10], HOLD_PENALTY), HELD),
    (Fire(&[20], HOLD_PENALTY), HELD),
    (Fire(&[10, 20], HOLD_PENALTY), "dead cycles 2"),
    (Fire(&[10], EJECT_PENALTY), "dead cycles 2"),
    (Held, "2"),
    (Event, ""),
];

// What was sent before the refused page can still be taken, and each later firing is refused with the same fault.
pub(super) const LIMIT: &[Row] = &[
    (Take("p", 60), ""),
    (Place(&[10]), "100: g0 b10 p7"),
    (Fire(&[10], EJECT_PENALTY), "page limit 1"),
    (Fire(&[10], HOLD_PENALTY), "page limit 1"),
    (Held, "0"),
    (Event, "page 1, 10 of 100: g0 b10 g0"),
    (Event, ""),
];
